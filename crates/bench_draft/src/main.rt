// Drafts two bench tables, one that can be kept safe for ever and one that can not, and prints what came of it.
#![tactic(auto)]

use bench::{BenchTable, Move};
use draft::draft;
use plant::Row;
use rules::Rule;
use samples::{step, table_of};
use std::io;

// Each table has one state bit and one line, and starts in state 0.
const BITS: u32 = 1;

const LINES: u32 = 1;

const START: u32 = 0;

// Drafts the table, and prints its rows, its rules and a sentence.
fn print_draft(rt: &HostRuntime, table: &BenchTable) -> io::Result<()> {
    let mut rows: [Row; 2] = [0; 2];
    let mut rules = [Rule::default(); 2];
    let answer = draft(table, &mut rows, &mut rules);
    for (state, row) in rows.iter().enumerate() {
        println!(rt; "row {state}: {row}")?;
    }
    match answer {
        Ok(count) => {
            for rule in rules.iter().take(count) {
                println!(rt; "rule: {rule}")?;
            }
            println!(rt;
                "The draft went through: every start can be kept safe for ever, by {count} rules."
            )
        }
        Err(fault) => {
            rt.println(fault.refusal())?;
            println!(rt;
                "The draft was turned away: no rule at all keeps that start safe for ever."
            )
        }
    }
}

fn try_moves(rt: &HostRuntime, moves: &[Move]) -> anyhow::Result<()> {
    match table_of(rt.alloc(), BITS, LINES, &[START], moves)? {
        Ok(table) => print_draft(rt, &table)?,
        Err(fault) => rt.println(fault.refusal())?,
    }
    Ok(())
}

fn main(rt: HostRuntime) -> anyhow::Result<()> {
    let there = step(0, 0, 1);
    let back = step(1, 0, 0);
    println!(rt; "start 0, moves 0 to 1 and 1 to 0 with the line off:")?;
    try_moves(&rt, &[there, back])?;
    println!(rt; "start 0, only the move 0 to 1 with the line off:")?;
    try_moves(&rt, &[there])
}
