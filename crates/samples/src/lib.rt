// Bench tables of slices, and short forms of moves and rules, for programs and tests.
#![tactic(auto)]

ghost use Rattle.std.specs.Prelude.{◌≡◌, IfOk};
ghost use Rattle.bench.specs.Outcome.{Built};

use bench::{BenchTable, Move, TableFault};
use rules::Rule;
use std::alloc::{AllocError, Global};

// From state 0 both settings lead back, and setting 1 also to state 1; there setting 0 leads to state 2, from which nothing does, and setting 1 back.
pub const DETOUR: [Move; 5] = [
    Move {
        from: 0,
        setting: 0,
        to: 0,
    },
    Move {
        from: 0,
        setting: 1,
        to: 0,
    },
    Move {
        from: 0,
        setting: 1,
        to: 1,
    },
    Move {
        from: 1,
        setting: 0,
        to: 2,
    },
    Move {
        from: 1,
        setting: 1,
        to: 0,
    },
];

// The move from a state by a setting to a state.
pub fn step(from: u32, setting: u32, to: u32) -> Move
    ensures from { result.from ≡ from }
    ensures setting { result.setting ≡ setting }
    ensures to { result.to ≡ to }
{
    Move { from, setting, to }
}

// The rule that in a state, if the lines below this one are set as `prefix`, the line has the value.
pub fn rule(state: u8, line: u8, prefix: u8, value: bool) -> Rule
    ensures state { result.state ≡ state }
    ensures line { result.line ≡ line }
    ensures prefix { result.prefix ≡ prefix }
    ensures value { result.value ≡ value }
{
    Rule {
        state,
        line,
        prefix,
        value,
    }
}

// The bench table of these starts and moves, or why it is turned away.
pub fn table_of(
    heap: Global,
    state_bits: u32,
    lines: u32,
    starts: &[u32],
    moves: &[Move],
) -> Result<Result<BenchTable, TableFault>, AllocError>
    ensures { IfOk result (Built state_bits lines starts.now moves.now) }
{
    let starts = Vec::from_slice(heap, starts)?;
    let moves = Vec::from_slice(heap, moves)?;
    Ok(BenchTable::new(state_bits, lines, starts, moves))
}
