// Why a call is turned away.
ghost use Rattle.std.specs.Prelude.{◌≡◌};
ghost use Rattle.reader.specs.Faults.{log_refusal};

use crate::phase::Phase;
use refusal::{Layer, Refusal};

#[derive(Clone, Copy, PartialEq, Eq, Debug)]
pub enum LogFault {
    // 15, 0 to 2 for the phase: the call is out of turn.
    OutOfTurn { phase: Phase },
    // 12, the number: it names no state, or no setting, of the plant.
    BeyondSizes { number: u32 },
    // 16, the state: it is no start.
    NoStart { state: u32 },
    // 17, the setting: it breaks a rule.
    Misfit { setting: u32 },
    // 18, the state: it does not follow the pair.
    NotFollowing { state: u32 },
}

impl LogFault {
    // The fault's number, place and layer.
    // No `From`: want of memory has no refusal, and one spelling serves every fault.
    pub fn refusal(&self) -> Refusal
        ensures { result ≡ log_refusal self.now }
    {
        let (number, place) = match self {
            LogFault::OutOfTurn { phase } => (15, phase.place()),
            LogFault::BeyondSizes { number } => (12, *number as usize),
            LogFault::NoStart { state } => (16, *state as usize),
            LogFault::Misfit { setting } => (17, *setting as usize),
            LogFault::NotFollowing { state } => (18, *state as usize),
        };
        Refusal::new(number, place, Layer::Log)
    }
}
