// Reads a plan from standard input, and prints what it holds or why it is turned away.
#![tactic(auto)]

use files::read_start;
use plan::{Plan, PlanFault};
use plant::Plant;
use std::io;

// The first so many bytes decide everything.
const LIMIT: usize = 2048;

fn count_starts(plan: &Plan) -> usize {
    (0..plan.states())
        .filter(|state| plan.is_start(*state))
        .count()
}

fn count_safe_in(plan: &Plan, state: u32) -> usize {
    (0..plan.settings())
        .filter(|setting| plan.is_safe(state, *setting))
        .count()
}

fn count_safe(plan: &Plan) -> usize {
    (0..plan.states()).fold(0, |count: usize, state| {
        count.saturating_add(count_safe_in(plan, state))
    })
}

fn print_plan(rt: &HostRuntime, plan: &Plan) -> io::Result<()> {
    let counts = plan.counts();
    println!(rt;
        "admitted: {} state bits, {} lines, {} auxiliaries",
        plan.state_bits(),
        plan.lines(),
        counts.auxiliaries
    )?;
    println!(rt;
        "clauses: {} start, {} next, {} auxiliary, {} bans",
        counts.starts, counts.nexts, counts.auxes, counts.bans
    )?;
    println!(rt;
        "starts: {}, safe pairs: {}",
        count_starts(plan),
        count_safe(plan)
    )
}

// Each program words its own line for a fault, and for want of memory: one function for all would take both as texts.
fn print_fault(rt: &HostRuntime, fault: PlanFault) -> io::Result<()> {
    match fault.refusal() {
        Some(refusal) => rt.println(refusal),
        None => println!(rt; "no memory for the plan"),
    }
}

fn main(rt: HostRuntime) -> anyhow::Result<()> {
    let mut buffer = [0; LIMIT];
    let bytes = read_start(&mut rt.stdin(), &mut buffer)?;
    match Plan::read(rt.alloc(), bytes) {
        Ok(plan) => print_plan(&rt, &plan)?,
        Err(fault) => print_fault(&rt, fault)?,
    }
    Ok(())
}
