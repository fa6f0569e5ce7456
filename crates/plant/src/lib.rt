// A plant: anything that answers five questions about a machine's states, drive lines and moves.
#![tactic(auto)]

ghost use Rattle.std.specs.Prelude.{◌≡◌, ◌^◌};
ghost use Rattle.plant.specs.Meaning.{Meaning, Within};

mod condition;
mod digits;
mod entry;
mod lent;
mod sizes;

pub use condition::{Condition, some_holds};
pub use digits::has_bit;
pub use entry::{Entry, first_misfit};
pub use lent::WrongLength;
pub use sizes::{Sizes, sizes_fit};

// The most state bits that a plant may have.
pub const MAX_STATE_BITS: u32 = 8;

// The most drive lines that a plant may have.
pub const MAX_LINES: u32 = 4;

// The most states that a plant may have: 2 to the power MAX_STATE_BITS.
pub const MAX_STATES: usize = 1 << MAX_STATE_BITS;

// One bit for each setting of the drive lines: 2 to the power MAX_LINES bits.
pub type Row = u16;

pub trait Plant {
    // What the plant means: its sizes, starts, safe pairs and followings.
    ghost meaning: { Self → Meaning };

    // The sizes lie within the limits, and no number beyond them is a start, safe or a following.
    ghost sound: { (x : Self) → Within (meaning x) };

    // How many state bits: states are the numbers below 2 to this power.
    fn state_bits(&self) -> u32
        ensures { result ≡ (meaning self.now).bits };

    // How many drive lines: settings are the numbers below 2 to this power.
    fn lines(&self) -> u32
        ensures { result ≡ (meaning self.now).lines };

    // Whether a session may start in `state`.
    fn is_start(&self, state: u32) -> bool
        ensures { result ≡ (meaning self.now).start state };

    // Whether `setting` is safe in `state`.
    // The two stay two numbers: any may be asked about, so a struct of both would carry no fact.
    fn is_safe(&self, state: u32, setting: u32) -> bool
        ensures { result ≡ (meaning self.now).safe state setting };

    // Whether `next` may follow `state` under `setting`.
    fn follows(&self, state: u32, setting: u32, next: u32) -> bool
        ensures { result ≡ (meaning self.now).follows state setting next };

    // Both sizes.
    fn sizes(&self) -> Sizes
        ensures { (result.state_bits ≡ (meaning self.now).bits) × (result.lines ≡ (meaning self.now).lines) }
    {
        Sizes {
            state_bits: self.state_bits(),
            lines: self.lines(),
        }
    }

    // The number of states.
    // Places are `usize`, of which the library makes none from a `u32`: `as` loses nothing of a state or a setting.
    fn states(&self) -> u32
        ensures { result ≡ 2 ^ (meaning self.now).bits }
    {
        self.sizes().states()
    }

    // The number of settings.
    fn settings(&self) -> u32
        ensures { result ≡ 2 ^ (meaning self.now).lines }
    {
        self.sizes().settings()
    }
}
