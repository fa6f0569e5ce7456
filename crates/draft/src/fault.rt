// Why a draft is turned away.
ghost use Rattle.std.specs.Prelude.{◌≡◌};
ghost use Rattle.draft.specs.Faults.{draft_refusal};

use refusal::{Layer, Refusal};

#[derive(Clone, Copy, PartialEq, Eq, Debug)]
pub enum DraftFault {
    // 11, the length needed: the rows lent are not one for each state.
    RowCount { needed: usize },
    // 11, the length needed: the places lent for rules may not suffice.
    RulePlaces { needed: usize },
    // 10, the state: no setting of this start can be kept safe for ever; it is the lowest such start.
    LostStart { state: u32 },
}

impl DraftFault {
    // The fault's number, place and layer.
    // No `From`: want of memory has no refusal, and one spelling serves every fault.
    pub fn refusal(&self) -> Refusal
        ensures { result ≡ draft_refusal self.now }
    {
        let (number, place) = match self {
            DraftFault::RowCount { needed } => (11, *needed),
            DraftFault::RulePlaces { needed } => (11, *needed),
            DraftFault::LostStart { state } => (10, *state as usize),
        };
        Refusal::new(number, place, Layer::Draft)
    }
}
