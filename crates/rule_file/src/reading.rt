// Reading a rule file.
ghost use Rattle.std.specs.Prelude.{◌≡◌, ◌+◌, ◌*◌, ◌≤◌, [], ◌++◌, map, length, drop};
ghost use Rattle.std.specs.List.{range_with_len};
ghost use Rattle.rule_file.specs.Outcome.{Read};
ghost use Rattle.rule_file.specs.Reading.{rule_at, read_records, counted};

use crate::fault::RuleFileFault;
use crate::kind::RuleFileKind;
use crate::order::{rule_at, stands_next};
use crate::places::put;
use filling::Filling;
use plant::Sizes;
use records::{ends_at, record_at};
use rules::Rule;

// How many bytes a rule's record has.
pub(crate) const RULE_LENGTH: usize = 5;

// Goes through the whole file, for a list with `room` places. The number of rules.
fn check_records(sizes: Sizes, bytes: &[u8], room: usize) -> Result<usize, RuleFileFault>
    ensures { result ≡ counted (read_records sizes.state_bits sizes.lines room bytes.now (length bytes.now) [] 0) }
{
    let mut at = 0;
    let mut count = 0;
    let mut last = None;
    // A cursor and no iterator: only a record says where the next begins, so an iterator would hold this cursor itself.
    loop {
        let found = record_at::<RuleFileKind>(bytes, at)?;
        match found.kind {
            RuleFileKind::End => {
                ends_at(bytes, found.end)?;
                return Ok(count);
            }
            RuleFileKind::Rule => {
                if !stands_next(sizes, last, bytes, at) {
                    return Err(RuleFileFault::Misplaced { offset: at });
                }
                if count >= room {
                    return Err(RuleFileFault::ListFull { offset: at });
                }
                last = Some(rule_at(bytes, at));
                count += 1;
                at = found.end;
            }
        }
    }
}

// Writes the rules of the first `count` records to the first places of the list.
fn fill(bytes: &[u8], list: &mut [Rule], count: usize)
    requires few_bytes { 5 * count ≤ length bytes.now }
    requires few { count ≤ length list.old }
    ensures { list.new ≡ map (λ i. rule_at bytes.now (5 * i)) (range_with_len 0 count) ++ drop count list.old }
{
    let mut filling = Filling::new(list);
    for record in bytes[..RULE_LENGTH * count].chunks_exact(RULE_LENGTH) {
        put(&mut filling, &[rule_at(record, 0)]);
    }
}

// The whole file is gone through first, and then the list is filled.
// A function apart: its proof file says what follows in words, and `read_rules` needs none.
fn read_into(sizes: Sizes, bytes: &[u8], list: &mut [Rule]) -> Result<usize, RuleFileFault>
    ensures { Read sizes.state_bits sizes.lines bytes.now list.old list.new result }
{
    let count = check_records(sizes, bytes, list.len())?;
    fill(bytes, list, count);
    Ok(count)
}

// Reads a rule file for a plant of these sizes into the first places of the list. The number of rules.
// Where the file is turned away, the list is as it was.
// By a rule of the project the list is lent: no heap, so no `Vec` of rules.
// Two numbers and no `Sizes`, since sizes out of their limits are one of the refusals.
#[tactic(auto, using(crate::proofs::Outcomes::read_sizes))]
pub fn read_rules(
    state_bits: u32,
    lines: u32,
    bytes: &[u8],
    list: &mut [Rule],
) -> Result<usize, RuleFileFault>
    ensures { Read state_bits lines bytes.now list.old list.new result }
{
    let Some(sizes) = Sizes::new(state_bits, lines) else {
        return Err(RuleFileFault::SizeLimits);
    };
    read_into(sizes, bytes, list)
}
