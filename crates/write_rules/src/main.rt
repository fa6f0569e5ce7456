// Drafts a plan from a named path, and writes its rule file to another.
#![tactic(auto)]

use archive::{DraftFileFault, draft_file};
use files::{MAX_RULE_FILE, name_failure};
use std::{env, fs, io};

// Each program words its own line for a fault, and for want of memory: one function for all would take both as texts.
fn print_fault(rt: &HostRuntime, fault: DraftFileFault) -> io::Result<()> {
    let why = match fault {
        DraftFileFault::Plan(_) => "the plan is turned away",
        DraftFileFault::Draft(_) => "no rule at all keeps that start safe for ever",
        DraftFileFault::Rules(_) => "there is no room for the file",
    };
    match fault.refusal() {
        Some(refusal) => println!(rt; "no rule file: {refusal}: {why}"),
        None => println!(rt; "no rule file: no memory for the plan"),
    }
}

fn draft_named(rt: &HostRuntime, from: &str, to: &str) -> anyhow::Result<()> {
    let plan = name_failure(rt, "read", from, fs::read(rt, from))?;
    let mut file = [0; MAX_RULE_FILE];
    match draft_file(rt.alloc(), plan.as_slice(), &mut file) {
        Ok(length) => {
            let count = length / 5;
            let written = fs::write(rt, to, &file[..length]);
            name_failure(rt, "write", to, written)?;
            println!(rt; "wrote {count} rules, {length} bytes, to {to}")?;
        }
        Err(fault) => print_fault(rt, fault)?,
    }
    Ok(())
}

fn main(rt: HostRuntime) -> anyhow::Result<()> {
    let mut words = env::args(&rt)?.skip(1);
    let (Some(from), Some(to)) = (words.next(), words.next()) else {
        println!(rt; "usage: write_rules PLAN RULES")?;
        return Ok(());
    };
    draft_named(&rt, from.as_str(), to.as_str())
}
