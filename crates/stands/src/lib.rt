// The console's stands: a session that is driven by values which are used up when they move on.
#![tactic(auto)]

mod either;
mod setting;
mod sighting;
mod suggestion;

pub use either::{AwaitsSetting, AwaitsSighting, NotTaken, Stand};
