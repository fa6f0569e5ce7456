// Rule files: a list of drive rules as bytes, read and written.
#![tactic(auto)]

mod fault;
mod kind;
mod order;
mod places;
mod reading;
mod writing;

pub use fault::RuleFileFault;
pub use reading::read_rules;
pub use writing::write_rules;
