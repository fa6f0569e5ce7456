// The sheet: from the bytes of a plan to a line for each state that says which settings are open.
#![tactic(auto)]

ghost use Rattle.std.specs.Prelude.{◌≡◌, ◌≤◌, length, Err, IfOk};
ghost use Rattle.filling.specs.Writing.{Wrote};
ghost use Rattle.sheet_call.specs.Faults.{sheet_refusal};
ghost use Rattle.sheet_call.specs.Making.{text_of_refusal};
ghost use Rattle.sheet_call.specs.Outcome.{SheetCall, lent};
ghost use Rattle.sheet_call.specs.Room.{text_needed};
ghost use Rattle.sheet_call.specs.Steps.{FirstRows, Tried};

mod fault;
mod page;
mod room;

use draft::{DraftFault, draft};
pub use fault::SheetFault;
use page::{put_lines, put_refusal};
use plan::Plan;
use plant::{Plant, Row};
pub use room::{INPUT_LENGTH, ROW_COUNT, RULE_PLACES, TEXT_LENGTH};
use rules::Rule;
use std::alloc::Global;

// What became of a sheet: the length of its text, and the number of rules or why it was refused.
#[derive(Clone, Copy, PartialEq, Eq, Debug)]
pub struct Sheet {
    pub length: usize,
    pub rules: Result<usize, SheetFault>,
}

// Drafts into the first rows, one for each state.
fn draft_first<P: Plant>(
    plant: &P,
    rows: &mut [Row; ROW_COUNT],
    rules: &mut [Rule; RULE_PLACES],
) -> Result<usize, DraftFault>
    ensures { FirstRows (P.meaning plant.now) rows.old rows.new rules.old rules.new result }
{
    draft(plant, &mut rows[0..plant.states() as usize], rules)
}

// Reads the plan, drafts it and writes the lines.
fn try_sheet(
    heap: Global,
    bytes: &[u8],
    text: &mut [u8; TEXT_LENGTH],
    rows: &mut [Row; ROW_COUNT],
    rules: &mut [Rule; RULE_PLACES],
) -> Result<Sheet, SheetFault>
    ensures tried { Tried bytes.now (lent text.old rows.old rules.old) (lent text.new rows.new rules.new) result }
    ensures size { length text.new ≡ text_needed }
{
    let plan = Plan::read(heap, bytes)?;
    let count = draft_first(&plan, rows, rules)?;
    let length = put_lines(text, &rows[0..plan.states() as usize], plan.settings());
    Ok(Sheet {
        length,
        rules: Ok(count),
    })
}

// Writes the line of the refusal. The length of the text: nothing for a fault without a number.
fn write_refusal(text: &mut [u8; TEXT_LENGTH], fault: SheetFault) -> usize
    ensures wrote { Wrote text.old text.new 0 result (text_of_refusal (sheet_refusal fault)) }
    ensures size { length text.new ≡ text_needed }
{
    match fault.refusal() {
        Some(refusal) => put_refusal(text, refusal),
        None => 0,
    }
}

// No sheet: nothing is written.
fn unmade(fault: SheetFault) -> Sheet
    ensures { result ≡ record { length = 0; rules = Err fault } }
{
    Sheet {
        length: 0,
        rules: Err(fault),
    }
}

// Makes the sheet in memory of the right lengths, and none in other memory.
// A function apart: its proof file says what follows in words, and `make_sheet` needs none.
fn sheet_in(
    heap: Global,
    bytes: &[u8],
    text: &mut [u8],
    rows: &mut [Row],
    rules: &mut [Rule],
) -> Sheet
    ensures outcome { SheetCall bytes.now (lent text.old rows.old rules.old) (lent text.new rows.new rules.new) result }
    ensures within { result.length ≤ length text.new }
    ensures counted { IfOk result.rules (λ n. n ≤ length rules.new) }
{
    let Some(text) = text.first_chunk_mut() else {
        return unmade(SheetFault::TextLength {
            needed: TEXT_LENGTH,
        });
    };
    let Some(rows) = rows.as_mut_array() else {
        return unmade(SheetFault::RowCount { needed: ROW_COUNT });
    };
    let Some(rules) = rules.as_mut_array() else {
        return unmade(SheetFault::RulePlaces {
            needed: RULE_PLACES,
        });
    };
    match try_sheet(heap, bytes, text, rows, rules) {
        Ok(sheet) => sheet,
        Err(fault) => Sheet {
            length: write_refusal(text, fault),
            rules: Err(fault),
        },
    }
}

// Reads the plan, drafts it into the first rows and the first places for rules, and writes the sheet, or why there is none.
// By a rule of the project text, rows and rules are lent, so that only the plan takes memory.
pub fn make_sheet(
    heap: Global,
    bytes: &[u8],
    text: &mut [u8],
    rows: &mut [Row],
    rules: &mut [Rule],
) -> Sheet
    ensures outcome { SheetCall bytes.now (lent text.old rows.old rules.old) (lent text.new rows.new rules.new) result }
    ensures within { result.length ≤ length text.new }
    ensures counted { IfOk result.rules (λ n. n ≤ length rules.new) }
{
    sheet_in(heap, bytes, text, rows, rules)
}
