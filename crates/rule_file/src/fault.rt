// Why a rule file is turned away, or cannot be written.
ghost use Rattle.std.specs.Prelude.{◌≡◌};
ghost use Rattle.rule_file.specs.Faults.{rule_file_refusal};
ghost use Rattle.rule_file.specs.declared.fault.RuleFileFault.TheVariants.{Bytes};

use records::BytesFault;
use refusal::{Layer, Refusal};

#[derive(Clone, Copy, PartialEq, Eq, Debug)]
pub enum RuleFileFault {
    // 1, 2 or 7, the offset, layer bytes: what is wrong with the bytes, whole.
    Bytes(BytesFault),
    // 4, 0: a size is out of its limits.
    SizeLimits,
    // 14, the offset: the rule is out of range, its value is neither 0 nor 1, or it does not come after the one before.
    Misplaced { offset: usize },
    // 11, the offset: there is no place in the list for this rule.
    ListFull { offset: usize },
    // 11, the length needed: the bytes lent do not suffice for the file.
    FileRoom { needed: usize },
}

impl RuleFileFault {
    // The fault's number, place and layer.
    // No `From`: want of memory has no refusal, and one spelling serves every fault.
    pub fn refusal(&self) -> Refusal
        ensures { result ≡ rule_file_refusal self.now }
    {
        let (number, place) = match self {
            RuleFileFault::Bytes(fault) => return fault.refusal(),
            RuleFileFault::SizeLimits => (4, 0),
            RuleFileFault::Misplaced { offset } => (14, *offset),
            RuleFileFault::ListFull { offset } => (11, *offset),
            RuleFileFault::FileRoom { needed } => (11, *needed),
        };
        Refusal::new(number, place, Layer::Rules)
    }
}

// Written by hand: clauses name what `?` makes of a fault, and a derive gives no such fact.
impl From<BytesFault> for RuleFileFault {
    ghost from_gives = { λ f r. r ≡ Bytes f };

    fn from(bytes: BytesFault) -> RuleFileFault {
        RuleFileFault::Bytes(bytes)
    }
}
