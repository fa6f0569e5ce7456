// The bench table.
ghost use Rattle.std.specs.Prelude.{◌≡◌, true};
ghost use Rattle.bench.specs.Table.{table_fits};

use crate::entry::Move;
use plant::Sizes;

#[derive(Drop)]
pub struct BenchTable {
    pub(crate) sizes: Sizes,
    pub(crate) starts: Vec<u32>,
    pub(crate) moves: Vec<Move>,
    // The entries are within the sizes.
    ghost fits: { table_fits sizes.state_bits sizes.lines starts.items moves.items ≡ true },
}
