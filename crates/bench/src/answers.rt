// The bench table's five answers.
ghost use Rattle.bench.specs.Outcome.{bench_meaning};
ghost use Rattle.bench.specs.Sound.{table_within};

use crate::table::BenchTable;
use plant::Plant;

impl Plant for BenchTable {
    ghost meaning = { bench_meaning };

    ghost sound = { λ x. table_within x.sizes.state_bits x.sizes.lines x.starts.items x.moves.items x.fits };

    fn state_bits(&self) -> u32 {
        self.sizes.state_bits()
    }

    fn lines(&self) -> u32 {
        self.sizes.lines()
    }

    fn is_start(&self, state: u32) -> bool {
        self.starts.contains(&state)
    }

    fn is_safe(&self, state: u32, setting: u32) -> bool {
        self.moves.iter().any(|entry| entry.leaves(state, setting))
    }

    fn follows(&self, state: u32, setting: u32, next: u32) -> bool {
        self.moves
            .iter()
            .any(|entry| entry.goes(state, setting, next))
    }
}
