// The sizes of a plan.
ghost use Rattle.std.specs.Prelude.{◌≡◌, ◌+◌, ◌^◌, ◌≤◌, false, MatchOption};
ghost use Rattle.plant.specs.Conditions.{masks_below};
ghost use Rattle.plan.specs.Sizes.{most_auxiliaries, sizes_fit};

use plant::{Condition, Sizes};

// The most auxiliaries that a plan may have.
pub(crate) const MAX_AUXILIARIES: u32 = 8;

// How many state bits, drive lines and auxiliaries there are.
#[derive(Clone, Copy)]
pub(crate) struct PlanSizes {
    // The state bits and the drive lines.
    pub(crate) pair: Sizes,
    pub(crate) auxiliaries: u32,
    // There are not too many auxiliaries.
    ghost few: { auxiliaries ≤ most_auxiliaries },
}

impl PlanSizes {
    // The sizes, where all three are within their limits.
    pub(crate) fn new(state_bits: u32, lines: u32, auxiliaries: u32) -> Option<PlanSizes>
        ensures { MatchOption result (sizes_fit state_bits lines auxiliaries ≡ false) (λ s. (s.pair.state_bits ≡ state_bits) × (s.pair.lines ≡ lines) × (s.auxiliaries ≡ auxiliaries)) }
    {
        if auxiliaries > MAX_AUXILIARIES {
            return None;
        }
        let pair = Sizes::new(state_bits, lines)?;
        Some(PlanSizes { pair, auxiliaries })
    }

    // The lowest letter of an auxiliary: state bits and lines come before.
    pub(crate) fn first_auxiliary(&self) -> u32
        ensures { result ≡ self.now.pair.state_bits + self.now.pair.lines }
    {
        self.pair.state_bits() + self.pair.lines()
    }

    // How many letters there are.
    pub(crate) fn letters(&self) -> u32
        ensures { result ≡ self.now.pair.state_bits + self.now.pair.lines + self.now.auxiliaries }
    {
        self.first_auxiliary() + self.auxiliaries
    }

    // How many assignments the auxiliaries have.
    pub(crate) fn assignments(&self) -> u32
        ensures { result ≡ 2 ^ self.now.auxiliaries }
    {
        1 << self.auxiliaries
    }

    // Whether every letter of the condition is one of those there are.
    pub(crate) fn has_letters_of(&self, condition: Condition) -> bool
        ensures { result ≡ masks_below (self.now.pair.state_bits + self.now.pair.lines + self.now.auxiliaries) condition }
    {
        condition.within(self.letters())
    }
}
