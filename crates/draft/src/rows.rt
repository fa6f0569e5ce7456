// The rows of a draft: which settings are open in each state.
ghost use Rattle.std.specs.Prelude.{◌≡◌, ◌<◌, length, MatchOption};
ghost use Rattle.std.specs.List.{filter, fold, range_with_len};
ghost use Rattle.plant.specs.Meaning.{states, settings};
ghost use Rattle.plant.specs.Staying.{stays};
ghost use Rattle.sweep.specs.Greatest.{Greatest, held_in};
ghost use Rattle.draft.specs.Rows.{row_from, rows_from, rows_of, with_open};
ghost use Rattle.draft.specs.Starts.{Lost, AllOpen};

use plant::{MAX_STATES, Plant, Row};
use sweep::{FlaggedPlant, lasting_states};

// The settings of `state` that are safe and lead only to states whose flag is up, opened one by one.
fn gathered<P: Plant>(flagged: &FlaggedPlant<'_, P>, state: u32) -> Row
    ensures { result ≡ fold with_open 0 (filter (stays (P.meaning flagged.now.plant.now) (held_in flagged.now.held.now) state) (range_with_len 0 (settings (P.meaning flagged.now.plant.now)))) }
{
    (0..flagged.plant.settings())
        .filter(|a| flagged.pair_stays(state, *a))
        .fold(0, |row, a| row | 1 << a)
}

// The same, as a row.
fn open_row<P: Plant>(flagged: &FlaggedPlant<'_, P>, state: u32) -> Row
    ensures { result ≡ row_from (P.meaning flagged.now.plant.now) flagged.now.held.now state }
{
    gathered(flagged, state)
}

// The row of a state, given the flags of the states that last. The plant is asked only where the flag is up:
// a state that does not last has nothing open.
fn row_of<P: Plant>(flagged: &FlaggedPlant<'_, P>, state: usize) -> Row
    requires flags { Greatest (P.meaning flagged.now.plant.now) flagged.now.held.now }
    requires a_state { state < states (P.meaning flagged.now.plant.now) }
    ensures { result ≡ row_from (P.meaning flagged.now.plant.now) flagged.now.held.now state }
{
    if !flagged.held[state] {
        return 0;
    }
    open_row(flagged, state as u32)
}

// Writes the row of each state, given the flags of the states that last.
fn write_rows<P: Plant>(flagged: &FlaggedPlant<'_, P>, rows: &mut [Row])
    requires each_state { length rows.old ≡ states (P.meaning flagged.now.plant.now) }
    requires flags { Greatest (P.meaning flagged.now.plant.now) flagged.now.held.now }
    ensures { rows.new ≡ rows_from (P.meaning flagged.now.plant.now) flagged.now.held.now }
{
    for (state, row) in rows.iter_mut().enumerate() {
        *row = row_of(flagged, state);
    }
}

// Fills the rows with the largest safe assignment of the plant.
pub(crate) fn fill_rows<P: Plant>(plant: &P, rows: &mut [Row])
    requires { length rows.old ≡ states (P.meaning plant.now) }
    ensures { rows.new ≡ rows_of (P.meaning plant.now) }
{
    let mut flags = [false; MAX_STATES];
    let held = &mut flags[0..rows.len()];
    let _ = lasting_states(plant, held);
    write_rows(&FlaggedPlant { plant, held }, rows);
}

// The lowest start whose row is empty.
pub(crate) fn lost_start<P: Plant>(plant: &P, rows: &[Row]) -> Option<u32>
    requires { length rows.now ≡ states (P.meaning plant.now) }
    ensures { MatchOption result (AllOpen (P.meaning plant.now) rows.now) (λ t. Lost (P.meaning plant.now) rows.now t) }
{
    (0..plant.states()).find(|t| rows[*t as usize] == 0 && plant.is_start(*t))
}
