// Lays bans over a clause plan and over a bench table, and prints the sheets: a line for each state, with a digit for each setting, 1 where it is open.
#![tactic(auto)]

use anyhow::anyhow;
use bench::BenchTable;
use draft::draft;
use layers::BanLayer;
use overlay::overlaid;
use plan::Plan;
use plant::{Condition, Plant, Row, has_bit};
use rules::Rule;
use samples::{DETOUR, table_of};
use std::alloc::Global;
use std::io;
use worked::brake_plan;

// The stored output was worked out by hand; how is said at each plan and table.

// One state bit, 0 at the start, and a line; where the line is off, the bit is 0 next.
// Every pair is safe. With either setting banned in state 1 the other is left there, and all else is open. With both banned state 1 has nothing
// left, and in state 0 the line on may lead there.
const SMALL_PLAN: [u8; 19] = [1, 1, 1, 0, 2, 0, 0, 3, 0, 0, 0, 0, 0, 0, 0, 0, 0, 2, 15];

// With two state bits, letter 2 is the line.
const NOT_ON_IN_0: [Condition; 1] = [Condition { ones: 4, zeros: 3 }];

const NOT_ON_IN_1: [Condition; 1] = [Condition { ones: 5, zeros: 2 }];

const NOT_OFF_IN_2: [Condition; 1] = [Condition { ones: 2, zeros: 5 }];

const PAST_THE_LINE: Condition = Condition { ones: 8, zeros: 0 };

// With one state bit, letter 1 is the line.
const SMALL_NOT_OFF_IN_1: Condition = Condition { ones: 1, zeros: 2 };

const SMALL_NOT_ON_IN_1: Condition = Condition { ones: 3, zeros: 0 };

fn print_row(rt: &HostRuntime, state: usize, row: Row) -> io::Result<()> {
    let off = u8::from(has_bit(u32::from(row), 0));
    let on = u8::from(has_bit(u32::from(row), 1));
    println!(rt; "{state} {off}{on}")
}

// Drafts the plant, which has one line and a row for each state, and prints its sheet.
fn print_sheet<P: Plant>(rt: &HostRuntime, plant: &P, rows: &mut [Row]) -> io::Result<()> {
    let mut rules = [Rule::default(); 4];
    match draft(plant, rows, &mut rules) {
        Ok(_) => {
            for (state, row) in rows.iter().enumerate() {
                print_row(rt, state, *row)?;
            }
            Ok(())
        }
        Err(fault) => rt.println(fault.refusal()),
    }
}

// The sheet of the plant with the bans laid over it, or why they are turned away.
fn print_banned<P: Plant>(
    rt: &HostRuntime,
    below: &P,
    bans: &[Condition],
    rows: &mut [Row],
) -> io::Result<()> {
    match BanLayer::new(below, bans) {
        Ok(layer) => print_sheet(rt, &layer, rows),
        Err(fault) => rt.println(fault.refusal()),
    }
}

// The brake plan with bans, with bans over bans, and with bans that are turned away.
// It has two state bits and a line; bit 1 is 0 at the start and follows the line; where the line is on, bit 0 is 0 next.
// Never bit 1 with the line on, and never bit 0 with the line off.
// So in state 0 both settings are safe, in state 1 only the line on, in state 2 only the line off, in state 3 neither. Under the line on only
// state 2 follows, under the line off states 0 and 1: all but state 3 last, and all that is safe is open.
// With the line on banned in state 0, that setting alone goes. With the line off banned in state 2 too, state 2 has nothing left; state 1 leads
// there; state 0 may lead to state 1: no state lasts, and start 0 is the lowest that is lost.
fn print_brake(rt: &HostRuntime, plan: &Plan) -> io::Result<()> {
    let mut rows = [0; 4];
    println!(rt; "brake plan:")?;
    print_sheet(rt, plan, &mut rows)?;
    println!(rt; "brake plan, never the line on in state 0:")?;
    match BanLayer::new(plan, &NOT_ON_IN_0) {
        Ok(layer) => {
            print_sheet(rt, &layer, &mut rows)?;
            println!(rt; "and never the line off in state 2:")?;
            print_banned(rt, &layer, &NOT_OFF_IN_2, &mut rows)?;
        }
        Err(fault) => rt.println(fault.refusal())?,
    }
    println!(rt; "brake plan, 17 bans:")?;
    print_banned(rt, plan, &[PAST_THE_LINE; 17], &mut rows)?;
    println!(rt; "brake plan, 16 bans, the first past the line:")?;
    print_banned(rt, plan, &[PAST_THE_LINE; 16], &mut rows)
}

// The bench table by itself and with a ban. From state 0 both settings lead back, and the line on also to state 1; from there the line off leads to
// state 2, the line on back.
// States 2 and 3 have no move and do not last; so in state 1 only the line on is open. With that banned, state 1 does not last, and in state 0 the
// line on is closed.
fn print_table(rt: &HostRuntime, table: &BenchTable) -> io::Result<()> {
    let mut rows = [0; 4];
    println!(rt; "bench table:")?;
    print_sheet(rt, table, &mut rows)?;
    println!(rt; "bench table, never the line on in state 1:")?;
    print_banned(rt, table, &NOT_ON_IN_1, &mut rows)
}

// Two bans one by one, their rows laid over each other, and both bans at once.
fn print_together(rt: &HostRuntime, plan: &Plan) -> io::Result<()> {
    let mut first = [0; 2];
    let mut second = [0; 2];
    println!(rt; "small plan, never the line off in state 1:")?;
    print_banned(rt, plan, &[SMALL_NOT_OFF_IN_1], &mut first)?;
    println!(rt; "small plan, never the line on in state 1:")?;
    print_banned(rt, plan, &[SMALL_NOT_ON_IN_1], &mut second)?;
    println!(rt; "these rows laid over each other, which is no draft:")?;
    for (state, (row, other)) in first.iter().zip(&second).enumerate() {
        print_row(rt, state, overlaid(*row, *other))?;
    }
    println!(rt; "small plan, neither:")?;
    let mut rows = [0; 2];
    print_banned(
        rt,
        plan,
        &[SMALL_NOT_OFF_IN_1, SMALL_NOT_ON_IN_1],
        &mut rows,
    )
}

fn read(heap: Global, bytes: &[u8]) -> anyhow::Result<Plan> {
    Plan::read(heap, bytes).map_err(|_| anyhow!("the plan was turned away"))
}

fn main(rt: HostRuntime) -> anyhow::Result<()> {
    let heap = rt.alloc();
    print_brake(&rt, &read(heap, &brake_plan())?)?;
    match table_of(heap, 2, 1, &[0], &DETOUR)? {
        Ok(table) => print_table(&rt, &table)?,
        Err(fault) => rt.println(fault.refusal())?,
    }
    print_together(&rt, &read(heap, &SMALL_PLAN)?)?;
    Ok(())
}
