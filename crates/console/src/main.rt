// A session on the brake plan, driven by stands: at each tick the console offers a setting, falls back on the suggestion, and is told what the machine did.
#![tactic(auto)]

use draft::draft;
use plan::Plan;
use plant::Row;
use reader::Call;
use rules::{Rule, RuledPlant};
use stands::{AwaitsSetting, AwaitsSighting, NotTaken, Stand};
use std::fmt::Display;
use std::io;
use worked::brake_plan;

// Worked out by hand, for the stored output: the starts are 0 and 1. In state 1 the line must be on, in state 2 it must be off (two rules);
// in state 0 both settings fit. Under the line on only state 2 follows, under the line off states 0 and 1.

// What happens at one tick: the setting that is offered first, the sighting that is told first, and the one that is true.
struct Tick {
    offered: u32,
    told: u32,
    seen: u32,
}

const TICKS: [Tick; 4] = [
    // In state 1: off does not fit, on is suggested; state 3 does not follow.
    Tick {
        offered: 0,
        told: 3,
        seen: 2,
    },
    // In state 2: on does not fit, off is suggested; state 2 does not follow.
    Tick {
        offered: 1,
        told: 2,
        seen: 0,
    },
    // In state 0: on fits, and state 2 follows.
    Tick {
        offered: 1,
        told: 2,
        seen: 2,
    },
    // In state 2: there is no setting 2, off is suggested; there is no state 4.
    Tick {
        offered: 2,
        told: 4,
        seen: 1,
    },
];

// Gives the stand on; where printing failed, the session ends.
fn keep<S: Stand>(printed: io::Result<()>, stand: S) -> io::Result<S> {
    match printed {
        Ok(()) => Ok(stand),
        Err(error) => {
            stand.close();
            Err(error)
        }
    }
}

// What a session is driven by: a plan with its rules, and where to print.
#[derive(Clone, Copy)]
struct Console<'a> {
    rt: &'a HostRuntime,
    ruled: &'a RuledPlant<'a, Plan>,
}

impl Console<'_> {
    // Prints the call, what came of it and where the stand is.
    fn print<S: Stand, D: Display + Drop>(&self, call: Call, what: D, stand: S) -> io::Result<S> {
        let phase = stand.phase();
        keep(println!(self.rt; "{call}: {what}, {phase}"), stand)
    }

    // Prints what came of a call on a stand. The next stand, or the same one.
    fn told<S: Stand, T: Stand>(
        &self,
        call: Call,
        answer: Result<S, NotTaken<T>>,
    ) -> io::Result<Result<S, T>> {
        match answer {
            Ok(next) => Ok(Ok(self.print(call, "taken", next)?)),
            Err(NotTaken { stand, fault }) => Ok(Err(self.print(call, fault.refusal(), stand)?)),
        }
    }

    // Makes the setting. The next stand, or the same one.
    fn set(
        &self,
        poised: AwaitsSetting,
        setting: u32,
    ) -> io::Result<Result<AwaitsSighting, AwaitsSetting>> {
        let answer = poised.set(self.ruled, setting);
        self.told(Call::Set { setting }, answer)
    }

    // Tells the sighting. The next stand, or the same one.
    fn see(
        &self,
        driven: AwaitsSighting,
        state: u32,
    ) -> io::Result<Result<AwaitsSetting, AwaitsSighting>> {
        let answer = driven.see(self.ruled.plant, state);
        self.told(Call::See { state }, answer)
    }

    // Makes the setting that is offered, or else the suggestion. None where the session ended.
    fn drive(&self, poised: AwaitsSetting, offered: u32) -> io::Result<Option<AwaitsSighting>> {
        let poised = match self.set(poised, offered)? {
            Ok(driven) => return Ok(Some(driven)),
            Err(poised) => poised,
        };
        let Some(setting) = poised.suggestion(self.ruled) else {
            poised.close();
            return Ok(None);
        };
        let poised = keep(println!(self.rt; "suggested: {setting}"), poised)?;
        Ok(next_or_end(self.set(poised, setting)?))
    }

    // Tells the first sighting, or else the second. None where the session ended.
    fn watch(&self, driven: AwaitsSighting, tick: &Tick) -> io::Result<Option<AwaitsSetting>> {
        let driven = match self.see(driven, tick.told)? {
            Ok(poised) => return Ok(Some(poised)),
            Err(driven) => driven,
        };
        Ok(next_or_end(self.see(driven, tick.seen)?))
    }

    // The whole session, tick by tick.
    fn drive_session(&self, first: AwaitsSetting) -> io::Result<()> {
        let mut poised = first;
        for tick in &TICKS {
            let Some(driven) = self.drive(poised, tick.offered)? else {
                return println!(self.rt; "no setting fits");
            };
            let Some(next) = self.watch(driven, tick)? else {
                return println!(self.rt; "the machine is lost sight of");
            };
            poised = next;
        }
        let phase = poised.close();
        println!(self.rt; "close: taken, {phase}")
    }

    // Begins in each state in turn, up to the first that is a start.
    fn begin_somewhere(&self) -> io::Result<()> {
        for state in [4, 2, 1] {
            let call = Call::Begin { state };
            match AwaitsSetting::begin(self.ruled.plant, state) {
                Ok(poised) => return self.drive_session(self.print(call, "taken", poised)?),
                Err(fault) => println!(self.rt; "{call}: {}", fault.refusal())?,
            }
        }
        Ok(())
    }
}

// The next stand; the session ends where there is none.
fn next_or_end<S: Stand, T: Stand>(answer: Result<S, T>) -> Option<S> {
    match answer {
        Ok(next) => Some(next),
        Err(stand) => {
            stand.close();
            None
        }
    }
}

// Drafts the plan, and drives the session by its rules where the draft went through.
fn print_session(rt: &HostRuntime, plan: &Plan) -> io::Result<()> {
    let mut rows: [Row; 4] = [0; 4];
    let mut rules = [Rule::default(); 4];
    match draft(plan, &mut rows, &mut rules) {
        Ok(count) => {
            let rules = &rules[..count];
            let ruled = &RuledPlant { plant: plan, rules };
            Console { rt, ruled }.begin_somewhere()
        }
        Err(fault) => rt.println(fault.refusal()),
    }
}

fn main(rt: HostRuntime) -> anyhow::Result<()> {
    match Plan::read(rt.alloc(), &brake_plan()) {
        Ok(plan) => print_session(&rt, &plan)?,
        Err(_) => println!(rt; "the plan was turned away")?,
    }
    Ok(())
}
