// Entries of the lists that plants are made from, and which of them is the first beyond the sizes.
ghost use Rattle.std.specs.Prelude.{◌≡◌, ℕ, ◌^◌, Bool, true, MatchOption};
ghost use Rattle.plant.specs.Entries.{start_fits, ban_fits};
ghost use Rattle.plant.specs.Tests.{FirstMisfit};
ghost use Rattle.std.specs.List.{list_all};

use crate::condition::Condition;
use crate::sizes::Sizes;

pub trait Entry {
    // Whether the entry names only what there is with so many state bits and lines.
    ghost within: { ℕ → ℕ → Self → Bool };

    fn fits(&self, sizes: Sizes) -> bool
        ensures { result ≡ within sizes.state_bits sizes.lines self.now };
}

// A start is a state.
impl Entry for u32 {
    ghost within = { λ b n. start_fits (2 ^ b) (2 ^ n) };

    fn fits(&self, sizes: Sizes) -> bool {
        *self < sizes.states()
    }
}

// A ban is a condition over the letters of a pair: the state bits, then the lines.
impl Entry for Condition {
    ghost within = { ban_fits };

    fn fits(&self, sizes: Sizes) -> bool {
        self.within(sizes.state_bits() + sizes.lines())
    }
}

// The index of the first entry that does not fit.
pub fn first_misfit<E: Entry>(entries: &[E], sizes: Sizes) -> Option<usize>
    ensures { MatchOption result (list_all (E.within sizes.state_bits sizes.lines) entries.now ≡ true) (λ i. FirstMisfit (E.within sizes.state_bits sizes.lines) entries.now i) }
{
    entries.iter().position(|entry| !entry.fits(sizes))
}
