// The rule file of a plan.
ghost use Rattle.std.specs.Prelude.{◌≡◌, ◌^◌, ◌≤◌, length, IfOk};
ghost use Rattle.plant.specs.Meaning.{most_bits};
ghost use Rattle.rules.specs.Limits.{most_rules};
ghost use Rattle.archive.specs.Outcome.{DraftedFile, RuleFileOf};

use crate::fault::DraftFileFault;
use draft::draft;
use plan::Plan;
use plant::{MAX_STATES, Plant, Row};
use rule_file::write_rules;
use rules::{MAX_RULES, Rule};
use std::alloc::Global;

// Drafts any plant with memory for the largest, and writes its rules to the file.
// A function apart: in one with its caller, too few places would be turned away in a proof file and by no clause.
fn draft_in<P: Plant>(
    plant: &P,
    rows: &mut [Row],
    list: &mut [Rule],
    file: &mut [u8],
) -> Result<usize, DraftFileFault>
    requires { (length rows.old ≡ 2 ^ most_bits) × (length list.old ≡ most_rules) }
    ensures outcome { DraftedFile (P.meaning plant.now) file.old file.new result }
    ensures within { IfOk result (λ k. k ≤ length file.new) }
{
    let states = plant.states() as usize;
    let count = draft(plant, &mut rows[0..states], list)?;
    Ok(write_rules(&list[0..count], file)?)
}

// Drafts any plant, and writes its rule file to the first bytes lent. The file's length. It allocates nothing.
// Where there is none, the bytes are as they were.
pub fn draft_file_by<P: Plant>(plant: &P, file: &mut [u8]) -> Result<usize, DraftFileFault>
    ensures outcome { DraftedFile (P.meaning plant.now) file.old file.new result }
    ensures within { IfOk result (λ k. k ≤ length file.new) }
{
    let mut rows: [Row; MAX_STATES] = [0; MAX_STATES];
    let mut list = [Rule::default(); MAX_RULES];
    draft_in(plant, &mut rows, &mut list, file)
}

// Drafts the plan, and writes its rule file to the first bytes lent. The file's length.
// Where there is none, the bytes are as they were.
pub fn draft_file(heap: Global, plan: &[u8], file: &mut [u8]) -> Result<usize, DraftFileFault>
    ensures outcome { RuleFileOf plan.now file.old file.new result }
    ensures within { IfOk result (λ k. k ≤ length file.new) }
{
    let plan = Plan::read(heap, plan)?;
    draft_file_by(&plan, file)
}
