// Makes the sheet of every stored plan, and compares its text and its rules with the stored ones.
#![tactic(auto)]

use files::MAX_RULE_FILE;
use plant::Row;
use rule_file::write_rules;
use rules::Rule;
use sheet_call::{ROW_COUNT, RULE_PLACES, TEXT_LENGTH, make_sheet};
use std::fs;
use tally::Tally;

// The memory in which sheets are made, one after another.
#[derive(Drop)]
struct Desk {
    text: [u8; TEXT_LENGTH],
    rows: [Row; ROW_COUNT],
    rules: [Rule; RULE_PLACES],
}

// Whether the rule file of the rules has just these bytes.
fn has_file(rules: &[Rule], want: &[u8]) -> bool {
    let mut file = [0; MAX_RULE_FILE];
    match write_rules(rules, &mut file) {
        Ok(length) => &file[0..length] == want,
        Err(_) => false,
    }
}

// The bytes of the stored file with this name and ending.
// Each program has its own: a public function needs a contract, and none can say what a file holds.
fn stored(rt: &HostRuntime, name: &str, ending: &str) -> anyhow::Result<Vec<u8>> {
    let path = format!(in rt.alloc(); "{name}.{ending}")?;
    Ok(fs::read(rt, path.as_str())?)
}

// Whether the sheet of the stored plan, and its rules where it has any, are the stored ones.
fn is_as_stored(rt: &HostRuntime, desk: &mut Desk, name: &str) -> anyhow::Result<bool> {
    let plan = stored(rt, name, "plan")?;
    let want = stored(rt, name, "sheet")?;
    let sheet = make_sheet(
        rt.alloc(),
        plan.as_slice(),
        &mut desk.text,
        &mut desk.rows,
        &mut desk.rules,
    );
    if &desk.text[..sheet.length] != want.as_slice() {
        return Ok(false);
    }
    let Ok(count) = sheet.rules else {
        return Ok(true);
    };
    let want = stored(rt, name, "rules")?;
    Ok(has_file(&desk.rules[..count], want.as_slice()))
}

// The same, and a line where they are not.
fn agrees(rt: &HostRuntime, desk: &mut Desk, name: &str) -> anyhow::Result<bool> {
    let agrees = is_as_stored(rt, desk, name)?;
    if !agrees {
        println!(rt; "not as stored: {name}")?;
    }
    Ok(agrees)
}

fn main(rt: HostRuntime) -> anyhow::Result<()> {
    let mut desk = Desk {
        text: [0; TEXT_LENGTH],
        rows: [0; ROW_COUNT],
        rules: [Rule::default(); RULE_PLACES],
    };
    let names = fs::read_to_string(&rt, "names.txt")?;
    let mut tally = Tally::default();
    for name in names.as_str().lines() {
        tally.count(agrees(&rt, &mut desk, name)?);
    }
    println!(rt; "{tally} plans agreed")?;
    Ok(())
}
