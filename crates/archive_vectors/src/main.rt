// Reads every stored rule file, drafts every stored plan and runs every stored log, and compares with the stored answers.
#![tactic(auto)]

use archive::{draft_file, verdict_on};
use files::MAX_RULE_FILE;
use rule_file::read_rules;
use rules::Rule;
use std::alloc::{AllocError, Global};
use std::fmt::Display;
use std::{fmt, fs};
use tally::Tally;

// A list of rules as it is stored: the number of rules, and then each by its parts.
#[derive(Clone, Copy)]
struct Listed<'a>(&'a [Rule]);

impl fmt::Display for Listed<'_> {
    fn fmt<W: fmt::Write>(&self, f: &mut fmt::Formatter<W>) -> fmt::Result {
        write!(f, "{}", self.0.len())?;
        for rule in self.0 {
            let value = u8::from(rule.value);
            write!(f, "; {} {} {} {value}", rule.state, rule.line, rule.prefix)?;
        }
        Ok(())
    }
}

// Whether what is found reads as what is stored.
fn reads_as<D: Display + Drop>(heap: Global, found: D, want: &str) -> Result<bool, AllocError> {
    let text = format!(in heap; "{found}")?;
    Ok(text.as_str() == want)
}

// The bytes of the stored file with this name and ending.
// Each program has its own: a public function needs a contract, and none can say what a file holds.
fn stored(rt: &HostRuntime, name: &str, ending: &str) -> anyhow::Result<Vec<u8>> {
    let path = format!(in rt.alloc(); "{name}.{ending}")?;
    Ok(fs::read(rt, path.as_str())?)
}

// A line of the list of rule files: name, state bits, lines, places, and what is expected.
#[derive(Clone, Copy)]
struct RuleFileCase<'a> {
    name: &'a str,
    bits: &'a str,
    lines: &'a str,
    places: &'a str,
    want: &'a str,
}

impl<'a> RuleFileCase<'a> {
    // None where the line has too few words.
    fn of_line(line: &'a str) -> Option<RuleFileCase<'a>> {
        let mut words = line.splitn(5, ' ');
        let (Some(name), Some(bits), Some(lines), Some(places), Some(want)) = (
            words.next(),
            words.next(),
            words.next(),
            words.next(),
            words.next(),
        ) else {
            return None;
        };
        Some(RuleFileCase {
            name,
            bits,
            lines,
            places,
            want,
        })
    }

    // Whether reading the bytes comes to what is expected. The numbers of the line are read only here: a file that is missing is told first.
    fn agrees(&self, heap: Global, bytes: &[u8]) -> anyhow::Result<bool> {
        let bits = self.bits.parse::<u32>()?;
        let lines = self.lines.parse::<u32>()?;
        let places = self.places.parse::<usize>()?;
        let mut list = vec![in heap; Rule::default(); places]?;
        Ok(match read_rules(bits, lines, bytes, &mut list) {
            Ok(count) => reads_as(heap, Listed(&list[..count]), self.want)?,
            Err(fault) => reads_as(heap, fault.refusal(), self.want)?,
        })
    }
}

fn check_rule_file(rt: &HostRuntime, line: &str) -> anyhow::Result<bool> {
    let Some(case) = RuleFileCase::of_line(line) else {
        return Ok(false);
    };
    let bytes = stored(rt, case.name, "rules")?;
    case.agrees(rt.alloc(), bytes.as_slice())
}

// A line of the list of plans: name, and what becomes of its draft.
fn check_draft(rt: &HostRuntime, line: &str) -> anyhow::Result<bool> {
    let heap = rt.alloc();
    let Some((name, want)) = line.split_once(' ') else {
        return Ok(false);
    };
    let plan = stored(rt, name, "plan")?;
    let mut file = [0; MAX_RULE_FILE];
    match draft_file(heap, plan.as_slice(), &mut file) {
        Ok(length) => {
            let found = format!(in heap; "written {length}")?;
            Ok(found.as_str() == want && stored(rt, name, "rules")?.as_slice() == &file[..length])
        }
        Err(fault) => match fault.refusal() {
            Some(refusal) => Ok(reads_as(heap, refusal, want)?),
            None => Ok(false),
        },
    }
}

// A line of the list of logs: the plan's name, a number, and the verdict.
fn check_log(rt: &HostRuntime, line: &str) -> anyhow::Result<bool> {
    let heap = rt.alloc();
    let Some((name, want)) = line.split_once(' ') else {
        return Ok(false);
    };
    let Some((stem, _)) = name.split_once('-') else {
        return Ok(false);
    };
    let plan = stored(rt, stem, "plan")?;
    let rules = stored(rt, stem, "rules")?;
    let log = stored(rt, name, "log")?;
    match verdict_on(heap, plan.as_slice(), rules.as_slice(), log.as_slice()) {
        Ok(verdict) => Ok(reads_as(heap, verdict, want)?),
        Err(_) => Ok(false),
    }
}

// Checks each line of a list, and prints how many agreed.
fn check_all<F: Fn(&HostRuntime, &str) -> anyhow::Result<bool> + Drop>(
    rt: &HostRuntime,
    list: &str,
    what: &str,
    agrees: F,
) -> anyhow::Result<()>
    requires { F.IsAlwaysCallable agrees }
{
    let list = fs::read_to_string(rt, list)?;
    let mut tally = Tally::default();
    for line in list.as_str().lines() {
        tally.count(agrees(rt, line)?);
    }
    println!(rt; "{tally} {what} agreed")?;
    Ok(())
}

fn main(rt: HostRuntime) -> anyhow::Result<()> {
    check_all(&rt, "rulefiles.txt", "rule files", check_rule_file)?;
    check_all(&rt, "plans.txt", "drafts", check_draft)?;
    check_all(&rt, "logs.txt", "logs", check_log)
}
