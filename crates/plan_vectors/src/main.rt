// Reads every stored plan, and compares whether it is admitted, or with what refused, with the stored answers.
#![tactic(auto)]

use plan::Plan;
use std::alloc::Global;
use std::fs;
use tally::Tally;

// What reading the bytes comes to, as a line of text.
fn verdict(heap: Global, bytes: &[u8]) -> anyhow::Result<String> {
    match Plan::read(heap, bytes) {
        Ok(_) => Ok(String::from_str(heap, "admitted")?),
        Err(fault) => match fault.refusal() {
            Some(refusal) => Ok(format!(in heap; "{refusal}")?),
            None => Ok(String::from_str(heap, "no memory")?),
        },
    }
}

// The bytes of the stored file with this name and ending.
// Each program has its own: a public function needs a contract, and none can say what a file holds.
fn stored(rt: &HostRuntime, name: &str, ending: &str) -> anyhow::Result<Vec<u8>> {
    let path = format!(in rt.alloc(); "{name}.{ending}")?;
    Ok(fs::read(rt, path.as_str())?)
}

// Whether the stored plan comes to what is expected.
fn agrees(rt: &HostRuntime, name: &str, want: &str) -> anyhow::Result<bool> {
    let bytes = stored(rt, name, "plan")?;
    let found = verdict(rt.alloc(), bytes.as_slice())?;
    if found.as_str() == want {
        return Ok(true);
    }
    println!(rt; "{found} is not as expected: {name} {want}")?;
    Ok(false)
}

fn main(rt: HostRuntime) -> anyhow::Result<()> {
    let expected = fs::read_to_string(&rt, "expected.txt")?;
    let cases = expected
        .as_str()
        .lines()
        .filter_map(|line| line.split_once(' '));
    let mut tally = Tally::default();
    for (name, want) in cases {
        tally.count(agrees(&rt, name, want)?);
    }
    println!(rt; "{tally} plans agreed")?;
    Ok(())
}
