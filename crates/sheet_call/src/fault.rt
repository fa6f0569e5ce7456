// Why no sheet is made.
ghost use Rattle.std.specs.Prelude.{◌≡◌};
ghost use Rattle.sheet_call.specs.Faults.{sheet_refusal};
ghost use Rattle.sheet_call.specs.declared.fault.SheetFault.TheVariants.{Plan, Draft};

use draft::DraftFault;
use plan::PlanFault;
use refusal::{Layer, Refusal};

#[derive(Clone, Copy, PartialEq, Eq, Debug)]
pub enum SheetFault {
    // 11, the length needed, layer draft: the text lent is shorter.
    TextLength { needed: usize },
    // 11, the length needed, layer draft: another number of rows is lent.
    RowCount { needed: usize },
    // 11, the length needed, layer draft: another number of places for rules is lent.
    RulePlaces { needed: usize },
    // 1 to 9, the plan's place and layer: why the plan is turned away, whole; no number where there was no memory for it.
    Plan(PlanFault),
    // 10, the start, layer draft: why the draft is turned away, whole.
    Draft(DraftFault),
}

impl SheetFault {
    // The fault's number, place and layer; want of memory has none.
    // No `From`: want of memory has no refusal, and one spelling serves every fault.
    pub fn refusal(&self) -> Option<Refusal>
        ensures { result ≡ sheet_refusal self.now }
    {
        let needed = match self {
            SheetFault::TextLength { needed }
            | SheetFault::RowCount { needed }
            | SheetFault::RulePlaces { needed } => *needed,
            SheetFault::Plan(fault) => return fault.refusal(),
            SheetFault::Draft(fault) => return Some(fault.refusal()),
        };
        Some(Refusal::new(11, needed, Layer::Draft))
    }
}

// By hand: `from_gives` lets a clause name the fault that `?` makes, and a derive states no such fact.
impl From<PlanFault> for SheetFault {
    ghost from_gives = { λ f r. r ≡ Plan f };

    fn from(plan: PlanFault) -> SheetFault {
        SheetFault::Plan(plan)
    }
}

// By hand, as above.
impl From<DraftFault> for SheetFault {
    ghost from_gives = { λ f r. r ≡ Draft f };

    fn from(draft: DraftFault) -> SheetFault {
        SheetFault::Draft(draft)
    }
}
