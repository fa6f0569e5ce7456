// Log files: the calls of a session as bytes, run on a log reader.
#![tactic(auto)]

mod entry;
mod fault;
mod kind;
mod run;

pub use entry::{Made, entry_at};
pub use fault::LogFileFault;
pub use run::run_log;
