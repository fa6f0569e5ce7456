// The two sizes of a plant, and their limits.
ghost use Rattle.std.specs.Prelude.{◌≡◌, ◌%◌, ◌^◌, true, false, MatchOption};
ghost use Rattle.plant.specs.Conditions.{pair_word};
ghost use Rattle.plant.specs.Sizes.{sizes_fit};

use crate::{MAX_LINES, MAX_STATE_BITS};

// Whether so many state bits and drive lines are within the limits.
pub fn sizes_fit(state_bits: u32, lines: u32) -> bool
    ensures { result ≡ sizes_fit state_bits lines }
{
    (1 <= state_bits && state_bits <= MAX_STATE_BITS) && (1 <= lines && lines <= MAX_LINES)
}

// How many state bits and drive lines there are.
#[derive(Clone, Copy, PartialEq, Eq, Debug)]
pub struct Sizes {
    pub(crate) state_bits: u32,
    pub(crate) lines: u32,
    // Both are within their limits.
    ghost fit: { sizes_fit state_bits lines ≡ true },
}

impl Sizes {
    // The two sizes, where they are within the limits.
    pub fn new(state_bits: u32, lines: u32) -> Option<Sizes>
        ensures { MatchOption result (sizes_fit state_bits lines ≡ false) (λ s. (s.state_bits ≡ state_bits) × (s.lines ≡ lines)) }
    {
        if !sizes_fit(state_bits, lines) {
            return None;
        }
        Some(Sizes { state_bits, lines })
    }

    // How many state bits.
    pub fn state_bits(&self) -> u32
        ensures { result ≡ self.now.state_bits }
    {
        self.state_bits
    }

    // How many drive lines.
    pub fn lines(&self) -> u32
        ensures { result ≡ self.now.lines }
    {
        self.lines
    }

    // The number of states.
    pub fn states(&self) -> u32
        ensures { result ≡ 2 ^ self.now.state_bits }
    {
        1 << self.state_bits
    }

    // The number of settings.
    pub fn settings(&self) -> u32
        ensures { result ≡ 2 ^ self.now.lines }
    {
        1 << self.lines
    }

    // The letters of a pair as one word: state bits lowest, then lines; of either number only the bits that are letters count.
    pub fn pair_word(&self, state: u32, setting: u32) -> u32
        ensures { result ≡ pair_word self.now.state_bits (state % 2 ^ self.now.state_bits) (setting % 2 ^ self.now.lines) }
    {
        let low = state % self.states();
        let high = setting % self.settings();
        low | high << self.state_bits
    }
}
