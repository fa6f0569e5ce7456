// Layers: plants that stand on another plant. The ban layer forbids settings that the plant below allows.
#![tactic(auto)]

mod answers;
mod ban;
mod build;
mod fault;
mod layer;

pub use fault::LayerFault;
pub use layer::{BanLayer, MAX_BANS};
