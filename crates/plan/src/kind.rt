// The kinds of record of a plan.
ghost use Rattle.plan.specs.Judging.{plan_kinds};
ghost use Rattle.plan.specs.Kinds.{code_of};

use records::FileKind;

// The kinds of clauses and bans.
#[derive(Clone, Copy, PartialEq, Eq, Debug)]
pub(crate) enum ItemKind {
    // A start clause: letter and value.
    Start,
    // A next clause: letter, value and condition.
    Next,
    // An auxiliary clause: letter, value and condition.
    Auxiliary,
    // A ban: a condition.
    Ban,
}

#[derive(Clone, Copy, PartialEq, Eq, Debug)]
pub(crate) enum PlanKind {
    // The head: the sizes.
    Head,
    // A clause or a ban.
    Item(ItemKind),
    // The end of the file.
    End,
}

impl FileKind for PlanKind {
    ghost kinds = { plan_kinds };

    ghost code = { code_of };

    fn from_code(byte: u8) -> Option<Self> {
        match byte {
            1 => Some(PlanKind::Head),
            2 => Some(PlanKind::Item(ItemKind::Start)),
            3 => Some(PlanKind::Item(ItemKind::Next)),
            4 => Some(PlanKind::Item(ItemKind::Auxiliary)),
            5 => Some(PlanKind::Item(ItemKind::Ban)),
            15 => Some(PlanKind::End),
            _ => None,
        }
    }

    fn body(self) -> usize {
        match self {
            PlanKind::Head => 3,
            PlanKind::Item(ItemKind::Start) => 2,
            PlanKind::Item(ItemKind::Next | ItemKind::Auxiliary) => 10,
            PlanKind::Item(ItemKind::Ban) => 8,
            PlanKind::End => 0,
        }
    }
}
