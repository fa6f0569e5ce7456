// Making a bench table from its lists.
ghost use Rattle.std.specs.Prelude.{◌≡◌};
ghost use Rattle.bench.specs.Outcome.{Built};

use crate::entry::Move;
use crate::fault::TableFault;
use crate::table::BenchTable;
use plant::{Sizes, first_misfit};

impl BenchTable {
    // The table of these starts and moves; a size out of its limits is refused first, then the first entry beyond the sizes.
    // Two numbers and no `Sizes`, since sizes out of their limits are one of the refusals.
    pub fn new(
        state_bits: u32,
        lines: u32,
        starts: Vec<u32>,
        moves: Vec<Move>,
    ) -> Result<BenchTable, TableFault>
        ensures { Built state_bits lines starts.items moves.items result }
    {
        let Some(sizes) = Sizes::new(state_bits, lines) else {
            return Err(TableFault::SizeLimits);
        };
        if let Some(index) = first_misfit(&starts, sizes) {
            return Err(TableFault::EntryBeyond { index });
        }
        if let Some(index) = first_misfit(&moves, sizes) {
            let index = starts.len() + index;
            return Err(TableFault::EntryBeyond { index });
        }
        Ok(BenchTable {
            sizes,
            starts,
            moves,
        })
    }
}
