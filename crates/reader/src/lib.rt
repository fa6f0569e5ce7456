// The log reader: it says of each call of a session whether it is taken.
#![tactic(auto)]

mod call;
mod fault;
mod phase;
mod reader;

pub use call::Call;
pub use fault::LogFault;
pub use phase::Phase;
pub use reader::{Reader, begun, driven, seen};
