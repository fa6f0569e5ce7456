// Reads a plan from standard input, and prints its sheet: which settings are open in each state, or why there is none.
#![tactic(auto)]

use anyhow::anyhow;
use files::read_start;
use plant::Row;
use rules::Rule;
use sheet_call::{INPUT_LENGTH, ROW_COUNT, RULE_PLACES, TEXT_LENGTH, make_sheet};
use std::io::Write;

fn main(rt: HostRuntime) -> anyhow::Result<()> {
    // Arrays of fixed length, lent to the call: by a rule of the project it allocates none of these.
    let mut buffer = [0; INPUT_LENGTH];
    let mut text = [0; TEXT_LENGTH];
    let mut rows: [Row; ROW_COUNT] = [0; ROW_COUNT];
    let mut rules = [Rule::default(); RULE_PLACES];
    let plan = read_start(&mut rt.stdin(), &mut buffer)?;
    let sheet = make_sheet(rt.alloc(), plan, &mut text, &mut rows, &mut rules);
    if sheet.rules.is_err_and(|fault| fault.refusal().is_none()) {
        return Err(anyhow!("no memory for the plan"));
    }
    rt.stdout().write_all(&text[..sheet.length])?;
    Ok(())
}
