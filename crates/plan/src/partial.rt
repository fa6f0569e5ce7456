// A plan of which some records were read.
ghost use Rattle.std.specs.Prelude.{◌≤◌};
ghost use Rattle.plan.specs.Judging.{most_clauses};

use crate::plan::Plan;

// A plan while it is read.
#[derive(Drop)]
pub(crate) struct Reading {
    pub(crate) plan: Plan,
    // How many clauses and bans were read.
    pub(crate) count: usize,
    // The offset of the first clause that clashes with one before it.
    pub(crate) clash: Option<usize>,
    // No more were read than there may be.
    ghost few: { count ≤ most_clauses },
}
