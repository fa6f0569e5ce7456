// The draft: from any plant the largest safe assignment of settings, written as rows and as rules.
#![tactic(auto)]

ghost use Rattle.std.specs.Prelude.{◌≡◌, ◌≤◌, length, IfOk};
ghost use Rattle.plant.specs.Meaning.{states};
ghost use Rattle.draft.specs.Outcome.{Answered, Drafted};
ghost use Rattle.draft.specs.Room.{Room};
ghost use Rattle.draft.specs.Rows.{places_needed};

mod fault;
mod listing;
mod rows;

pub use fault::DraftFault;
use listing::write_rules;
use plant::{Plant, Row};
use rows::{fill_rows, lost_start};
use rules::Rule;

// Whether the memory lent has the right lengths: a row for each state, and places for the rules that there may be.
fn check_room<P: Plant>(plant: &P, rows: usize, rules: usize) -> Result<(), DraftFault>
    ensures { Room (P.meaning plant.now) rows rules result }
{
    let states = plant.states() as usize;
    if rows != states {
        return Err(DraftFault::RowCount { needed: states });
    }
    let needed = states * (plant.settings() as usize - 1);
    if rules < needed {
        return Err(DraftFault::RulePlaces { needed });
    }
    Ok(())
}

// Drafts into memory of the right lengths.
// A function apart: its proof file says what follows in words, and `draft` needs none.
// Each step names the length that it needs: a struct of both loans is no plainer,
// since its invariant speaks of the plant too, and each contract names both loans again.
fn draft_in_room<P: Plant>(
    plant: &P,
    rows: &mut [Row],
    rules: &mut [Rule],
) -> Result<usize, DraftFault>
    requires each_state { length rows.old ≡ states (P.meaning plant.now) }
    requires places { places_needed (P.meaning plant.now) ≤ length rules.old }
    ensures { Answered (P.meaning plant.now) rows.new rules.old rules.new result }
{
    fill_rows(plant, rows);
    if let Some(state) = lost_start(plant, rows) {
        return Err(DraftFault::LostStart { state });
    }
    Ok(write_rules(plant, rows, rules))
}

// Fills the rows with the largest safe assignment and, where every start lasts, writes its rules
// by state, line and prefix. The number of rules.
// By a rule of the project all memory is lent: no heap, so no `Vec` of rows or rules.
pub fn draft<P: Plant>(plant: &P, rows: &mut [Row], rules: &mut [Rule]) -> Result<usize, DraftFault>
    ensures outcome { Drafted (P.meaning plant.now) rows.old rows.new rules.old rules.new result }
    ensures within { IfOk result (λ n. n ≤ length rules.new) }
{
    check_room(plant, rows.len(), rules.len())?;
    draft_in_room(plant, rows, rules)
}
