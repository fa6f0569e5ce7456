// Reads a plan, a rule file and a log from named paths, and says of each call whether it was permitted.
#![tactic(auto)]

use archive::{ArchiveFault, Verdict, verdict_on};
use files::name_failure;
use log_file::entry_at;
use plan::Plan;
use plant::Plant;
use reader::{Call, LogFault, Phase, Reader};
use rule_file::read_rules;
use rules::{MAX_RULES, Rule, RuledPlant};
use std::{env, fs, io};

// The three files that the program is given.
#[derive(Drop)]
struct Stored {
    plan: Vec<u8>,
    rules: Vec<u8>,
    log: Vec<u8>,
}

// What is wrong with a call, in plain words.
fn reason(fault: LogFault) -> &'static str {
    match fault {
        LogFault::OutOfTurn { .. } => "the call is out of turn",
        LogFault::BeyondSizes { .. } => "the plan has no such state or setting",
        LogFault::NoStart { .. } => "no session starts in this state",
        LogFault::Misfit { .. } => "the setting breaks a rule",
        LogFault::NotFollowing { .. } => "this state cannot follow",
    }
}

// Prints a line for a call: where it stands, what came of it and the phase after it.
fn print_call(
    rt: &HostRuntime,
    offset: usize,
    call: Call,
    answer: Result<(), LogFault>,
    phase: Phase,
) -> io::Result<()> {
    match answer {
        Ok(()) => println!(rt; "{offset}: {call}: taken, {phase}"),
        Err(fault) => {
            let refusal = fault.refusal();
            let why = reason(fault);
            println!(rt; "{offset}: {call}: {refusal}, {why}, {phase}")
        }
    }
}

// Prints a line for each call, up to the first that is turned away.
fn print_calls<P: Plant>(
    rt: &HostRuntime,
    ruled: &RuledPlant<'_, P>,
    log: &[u8],
) -> io::Result<()> {
    let mut reader = Reader::new();
    let mut at = 0;
    // No iterator: where the next record begins is known only when this one was read.
    while let Ok(Some(made)) = entry_at(log, at) {
        let answer = reader.make(ruled, made.call);
        print_call(rt, at, made.call, answer, reader.phase())?;
        if answer.is_err() {
            break;
        }
        at = made.end;
    }
    Ok(())
}

// Prints the calls and then the verdict.
fn print_verdict(rt: &HostRuntime, stored: &Stored, verdict: Verdict) -> io::Result<()> {
    let mut list = [Rule::default(); MAX_RULES];
    if let Ok(plan) = Plan::read(rt.alloc(), stored.plan.as_slice()) {
        let rules = stored.rules.as_slice();
        if let Ok(count) = read_rules(plan.state_bits(), plan.lines(), rules, &mut list) {
            let ruled = RuledPlant {
                plant: &plan,
                rules: &list[..count],
            };
            print_calls(rt, &ruled, stored.log.as_slice())?;
        }
    }
    let end = match verdict.outcome {
        Ok(_) => "every call of the log was taken",
        Err(_) => "the log goes no further",
    };
    println!(rt; "verdict: {verdict}: {end}")
}

// Each program words its own line for a fault, and for want of memory: one function for all would take both as texts.
fn print_fault(rt: &HostRuntime, fault: ArchiveFault) -> io::Result<()> {
    let what = match fault {
        ArchiveFault::Plan(_) => "the plan",
        ArchiveFault::Rules(_) => "the rule file",
    };
    match fault.refusal() {
        Some(refusal) => println!(rt; "no verdict: {what} is turned away: {refusal}"),
        None => println!(rt; "no verdict: no memory for {what}"),
    }
}

fn judge(rt: &HostRuntime, plan: &str, rules: &str, log: &str) -> anyhow::Result<()> {
    let read = |path: &str| name_failure(rt, "read", path, fs::read(rt, path));
    let stored = Stored {
        plan: read(plan)?,
        rules: read(rules)?,
        log: read(log)?,
    };
    let answer = verdict_on(
        rt.alloc(),
        stored.plan.as_slice(),
        stored.rules.as_slice(),
        stored.log.as_slice(),
    );
    match answer {
        Ok(verdict) => print_verdict(rt, &stored, verdict)?,
        Err(fault) => print_fault(rt, fault)?,
    }
    Ok(())
}

fn main(rt: HostRuntime) -> anyhow::Result<()> {
    let mut words = env::args(&rt)?.skip(1);
    let (Some(plan), Some(rules), Some(log)) = (words.next(), words.next(), words.next()) else {
        println!(rt; "usage: coach PLAN RULES LOG")?;
        return Ok(());
    };
    judge(&rt, plan.as_str(), rules.as_str(), log.as_str())
}
