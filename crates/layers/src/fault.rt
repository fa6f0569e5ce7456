// Why bans are turned away.
ghost use Rattle.std.specs.Prelude.{◌≡◌};
ghost use Rattle.layers.specs.Faults.{layer_refusal};

use crate::layer::MAX_BANS;
use refusal::{Layer, Refusal};

#[derive(Clone, Copy, PartialEq, Eq, Debug)]
pub enum LayerFault {
    // 13, 16: there is a 17th ban.
    TooManyBans,
    // 12, the index: this ban, the first such, has a letter past the state bits and lines.
    BanBeyond { index: usize },
}

impl LayerFault {
    // The fault's number, place and layer.
    // No `From`: want of memory has no refusal, and one spelling serves every fault.
    pub fn refusal(&self) -> Refusal
        ensures { result ≡ layer_refusal self.now }
    {
        let (number, place) = match self {
            LayerFault::TooManyBans => (13, MAX_BANS),
            LayerFault::BanBeyond { index } => (12, *index),
        };
        Refusal::new(number, place, Layer::Plant)
    }
}
