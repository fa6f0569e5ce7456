// Drafts a bench table and reads a short session against its rules, call by call.
#![tactic(auto)]

use bench::BenchTable;
use draft::draft;
use plant::Row;
use reader::{Call, Reader};
use rules::{Rule, RuledPlant};
use samples::{DETOUR, table_of};
use std::io;

const SESSION: [Call; 14] = [
    Call::Set { setting: 0 },
    Call::Begin { state: 4 },
    Call::Begin { state: 1 },
    Call::Begin { state: 0 },
    Call::See { state: 0 },
    Call::Set { setting: 2 },
    Call::Set { setting: 1 },
    Call::See { state: 2 },
    Call::See { state: 1 },
    Call::Set { setting: 0 },
    Call::Set { setting: 1 },
    Call::See { state: 0 },
    Call::Close,
    Call::Close,
];

// Reads the session on a new reader, and prints each call, its answer and the phase after it.
fn print_session(rt: &HostRuntime, ruled: &RuledPlant<'_, BenchTable>) -> io::Result<()> {
    let mut reader = Reader::new();
    for call in SESSION {
        let answer = reader.make(ruled, call);
        let phase = reader.phase();
        match answer {
            Ok(()) => println!(rt; "{call}: taken, {phase}")?,
            Err(fault) => println!(rt; "{call}: {}, {phase}", fault.refusal())?,
        }
    }
    Ok(())
}

// Drafts the table, and reads the session where the draft went through.
fn print_reading(rt: &HostRuntime, table: &BenchTable) -> io::Result<()> {
    let mut rows: [Row; 4] = [0; 4];
    let mut rules = [Rule::default(); 4];
    match draft(table, &mut rows, &mut rules) {
        Ok(count) => {
            for rule in rules.iter().take(count) {
                println!(rt; "rule: {rule}")?;
            }
            let rules = &rules[..count];
            print_session(
                rt,
                &RuledPlant {
                    plant: table,
                    rules,
                },
            )?;
            println!(rt; "Each call was taken exactly when it was permitted.")
        }
        Err(fault) => rt.println(fault.refusal()),
    }
}

fn main(rt: HostRuntime) -> anyhow::Result<()> {
    match table_of(rt.alloc(), 2, 1, &[0], &DETOUR)? {
        Ok(table) => print_reading(&rt, &table)?,
        Err(fault) => rt.println(fault.refusal())?,
    }
    Ok(())
}
