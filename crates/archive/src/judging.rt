// The verdict on a log, from what was stored: a plan, a rule file and the log.
ghost use Rattle.std.specs.Prelude.{Some};
ghost use Rattle.archive.specs.Shown.{verdict_words};
ghost use Rattle.archive.specs.Outcome.{Judged, RightByDraft, Archived, WholeChain};

use crate::fault::ArchiveFault;
use log_file::{LogFileFault, run_log};
use plan::Plan;
use plant::Plant;
use reader::{Phase, Reader};
use rule_file::{RuleFileFault, read_rules};
use rules::{MAX_RULES, Rule, RuledPlant};
use std::alloc::Global;
use std::fmt;

// What a log comes to on a new reader: the number of calls taken or why the run stopped, and the phase after it.
#[derive(Clone, Copy, PartialEq, Eq, Debug)]
pub struct Verdict {
    pub outcome: Result<usize, LogFileFault>,
    pub phase: Phase,
}

impl fmt::Display for Verdict {
    ghost output = { λ v. Some (verdict_words v) };

    fn fmt<W: fmt::Write>(&self, f: &mut fmt::Formatter<W>) -> fmt::Result {
        let phase = self.phase;
        match self.outcome {
            Ok(taken) => write!(f, "taken {taken}, {phase}"),
            Err(fault) => write!(f, "{fault}, {phase}"),
        }
    }
}

// The verdict on a log by a rule file, for any plant. It allocates nothing.
pub fn verdict_by<P: Plant>(plant: &P, rules: &[u8], log: &[u8]) -> Result<Verdict, RuleFileFault>
    ensures judged { Judged (P.meaning plant.now) rules.now log.now result }
    ensures right { RightByDraft (P.meaning plant.now) rules.now log.now result }
{
    let mut list = [Rule::default(); MAX_RULES];
    let count = read_rules(plant.state_bits(), plant.lines(), rules, &mut list)?;
    let rules = &list[0..count];
    let mut reader = Reader::new();
    let outcome = run_log(&mut reader, &RuledPlant { plant, rules }, log);
    let phase = reader.phase();
    Ok(Verdict { outcome, phase })
}

// The verdict on a log by a plan and a rule file: from the bytes that were stored to whether each call was permitted.
pub fn verdict_on(
    heap: Global,
    plan: &[u8],
    rules: &[u8],
    log: &[u8],
) -> Result<Verdict, ArchiveFault>
    ensures outcome { Archived plan.now rules.now log.now result }
    ensures chain { WholeChain plan.now rules.now log.now result }
{
    let plan = Plan::read(heap, plan)?;
    Ok(verdict_by(&plan, rules, log)?)
}
