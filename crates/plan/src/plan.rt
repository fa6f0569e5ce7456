// A clause plan.
use crate::clause::Clause;
use crate::sizes::PlanSizes;
use plant::Condition;

// The most clauses and bans that a plan may have.
pub(crate) const MAX_CLAUSES: usize = 96;

// How many auxiliaries a plan has, and how many clauses of each kind.
#[derive(Clone, Copy, PartialEq, Eq, Debug)]
pub struct Counts {
    pub auxiliaries: u32,
    pub starts: usize,
    pub nexts: usize,
    pub auxes: usize,
    pub bans: usize,
}

#[derive(Drop)]
pub struct Plan {
    pub(crate) sizes: PlanSizes,
    // The values of state bits at the start, as clauses whose condition is always true.
    pub(crate) starts: Vec<Clause>,
    // The values of state bits at the next tick.
    pub(crate) nexts: Vec<Clause>,
    // The values of auxiliaries in the same tick.
    pub(crate) auxes: Vec<Clause>,
    // What must never be true.
    pub(crate) bans: Vec<Condition>,
}
