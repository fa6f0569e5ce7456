// Why there is no verdict, or no rule file.
ghost use Rattle.std.specs.Prelude.{◌≡◌};
ghost use Rattle.archive.specs.Faults.{archive_refusal, draft_file_refusal};
ghost use Rattle.archive.specs.declared.fault.ArchiveFault.TheVariants as archive;
ghost use Rattle.archive.specs.declared.fault.DraftFileFault.TheVariants as drafting;

use draft::DraftFault;
use plan::PlanFault;
use refusal::Refusal;
use rule_file::RuleFileFault;

// Why there is no verdict on a log.
#[derive(Clone, Copy, PartialEq, Eq, Debug)]
pub enum ArchiveFault {
    // The plan is turned away.
    Plan(PlanFault),
    // The rule file is turned away.
    Rules(RuleFileFault),
}

// Why there is no rule file of a plan.
#[derive(Clone, Copy, PartialEq, Eq, Debug)]
pub enum DraftFileFault {
    // The plan is turned away.
    Plan(PlanFault),
    // Its draft is turned away.
    Draft(DraftFault),
    // The bytes lent do not suffice for the file.
    Rules(RuleFileFault),
}

impl ArchiveFault {
    // Number, place and layer of the fault inside; want of memory has none.
    // No `From`: want of memory has no refusal, and one spelling serves every fault.
    pub fn refusal(&self) -> Option<Refusal>
        ensures { result ≡ archive_refusal self.now }
    {
        match self {
            ArchiveFault::Plan(fault) => fault.refusal(),
            ArchiveFault::Rules(fault) => Some(fault.refusal()),
        }
    }
}

impl DraftFileFault {
    // Number, place and layer of the fault inside; want of memory has none.
    // No `From`: want of memory has no refusal, and one spelling serves every fault.
    pub fn refusal(&self) -> Option<Refusal>
        ensures { result ≡ draft_file_refusal self.now }
    {
        match self {
            DraftFileFault::Plan(fault) => fault.refusal(),
            DraftFileFault::Draft(fault) => Some(fault.refusal()),
            DraftFileFault::Rules(fault) => Some(fault.refusal()),
        }
    }
}

// Written by hand: clauses name what `?` makes of a fault, and a derive gives no such fact.
impl From<PlanFault> for ArchiveFault {
    ghost from_gives = { λ f r. r ≡ archive.Plan f };

    fn from(fault: PlanFault) -> ArchiveFault {
        ArchiveFault::Plan(fault)
    }
}

impl From<RuleFileFault> for ArchiveFault {
    ghost from_gives = { λ f r. r ≡ archive.Rules f };

    fn from(fault: RuleFileFault) -> ArchiveFault {
        ArchiveFault::Rules(fault)
    }
}

impl From<PlanFault> for DraftFileFault {
    ghost from_gives = { λ f r. r ≡ drafting.Plan f };

    fn from(fault: PlanFault) -> DraftFileFault {
        DraftFileFault::Plan(fault)
    }
}

impl From<DraftFault> for DraftFileFault {
    ghost from_gives = { λ f r. r ≡ drafting.Draft f };

    fn from(fault: DraftFault) -> DraftFileFault {
        DraftFileFault::Draft(fault)
    }
}

impl From<RuleFileFault> for DraftFileFault {
    ghost from_gives = { λ f r. r ≡ drafting.Rules f };

    fn from(fault: RuleFileFault) -> DraftFileFault {
        DraftFileFault::Rules(fault)
    }
}
