// What is kept of a machine and what it tells later: a plan, the rule file of its draft, and logs.
#![tactic(auto)]

mod drafting;
mod fault;
mod judging;

pub use drafting::{draft_file, draft_file_by};
pub use fault::{ArchiveFault, DraftFileFault};
pub use judging::{Verdict, verdict_by, verdict_on};
