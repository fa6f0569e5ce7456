// Why a bench table is turned away.
ghost use Rattle.std.specs.Prelude.{◌≡◌};
ghost use Rattle.bench.specs.Faults.{table_refusal};

use refusal::{Layer, Refusal};

#[derive(Clone, Copy, PartialEq, Eq, Debug)]
pub enum TableFault {
    // 4, 0: the number of state bits or of lines is out of its limits.
    SizeLimits,
    // 12, the index: this entry, the first such, names a state or a setting beyond the sizes; moves are counted on after starts.
    EntryBeyond { index: usize },
}

impl TableFault {
    // The fault's number, place and layer.
    // No `From`: want of memory has no refusal, and one spelling serves every fault.
    pub fn refusal(&self) -> Refusal
        ensures { result ≡ table_refusal self.now }
    {
        let (number, place) = match self {
            TableFault::SizeLimits => (4, 0),
            TableFault::EntryBeyond { index } => (12, *index),
        };
        Refusal::new(number, place, Layer::Plant)
    }
}
