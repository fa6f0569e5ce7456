// Why a plan is turned away.
ghost use Rattle.std.specs.Prelude.{◌≡◌};
ghost use Rattle.plan.specs.Faults.{plan_refusal};
ghost use Rattle.plan.specs.declared.fault.PlanFault.TheVariants.{Bytes, Memory};

use records::BytesFault;
use refusal::{Layer, Refusal};
use std::alloc::AllocFailed;

#[derive(Clone, Copy, PartialEq, Eq, Debug)]
pub enum PlanFault {
    // 1, 2 or 7, the offset, layer bytes: what is wrong with the bytes, whole.
    Bytes(BytesFault),
    // 3, the offset: the first record is no head, or a later one is.
    HeadMisplaced { offset: usize },
    // 4, 0: a size is out of its limits.
    SizeLimits,
    // 5, the offset: one clause or ban too many.
    TooManyClauses { offset: usize },
    // 6, the offset: a letter of the wrong sort, a value that is neither 0 nor 1, or a mask beyond the letters.
    Malformed { offset: usize },
    // 8, the letter: this auxiliary depends on itself; it is the lowest such letter.
    Loop { letter: u32 },
    // 9, the offset: this clause clashes with one before it; it is the first such clause.
    Clash { offset: usize },
    // No number: there is no memory for the clauses.
    Memory,
}

impl PlanFault {
    // The fault's number, place and layer; want of memory has none.
    // No `From`: want of memory has no refusal, and one spelling serves every fault.
    pub fn refusal(&self) -> Option<Refusal>
        ensures { result ≡ plan_refusal self.now }
    {
        let (number, place) = match self {
            PlanFault::Bytes(fault) => return Some(fault.refusal()),
            PlanFault::HeadMisplaced { offset } => (3, *offset),
            PlanFault::SizeLimits => (4, 0),
            PlanFault::TooManyClauses { offset } => (5, *offset),
            PlanFault::Malformed { offset } => (6, *offset),
            // No `From` goes from u32 to usize.
            PlanFault::Loop { letter } => (8, *letter as usize),
            PlanFault::Clash { offset } => (9, *offset),
            PlanFault::Memory => return None,
        };
        Some(Refusal::new(number, place, Layer::Plan))
    }
}

// Written by hand, as the one after it: a clause names the error that a `?` makes, and a derive gives no such fact.
impl From<BytesFault> for PlanFault {
    ghost from_gives = { λ f r. r ≡ Bytes f };

    fn from(bytes: BytesFault) -> PlanFault {
        PlanFault::Bytes(bytes)
    }
}

impl<T: Drop> From<AllocFailed<T>> for PlanFault {
    ghost from_gives = { λ _ r. r ≡ Memory };

    fn from(_e: AllocFailed<T>) -> PlanFault {
        Self::Memory
    }
}
