// Writing a rule file.
ghost use Rattle.std.specs.Prelude.{◌≡◌, ◌≤◌, ◌++◌, length, drop, IfOk};
ghost use Rattle.rule_file.specs.Encoding.{rule_bytes, rules_bytes};
ghost use Rattle.rule_file.specs.Outcome.{Written};

use crate::fault::RuleFileFault;
use crate::kind::RuleFileKind;
use crate::places::put;
use crate::reading::RULE_LENGTH;
use filling::Filling;
use rules::Rule;

// How many bytes the file of the list has.
#[tactic(auto, using(crate::proofs::Records::file_length))]
fn file_length(list: &[Rule]) -> usize
    ensures { result ≡ length (rules_bytes list.now) }
{
    RULE_LENGTH * list.len() + 1
}

// The record of the rule.
fn rule_record(rule: &Rule) -> [u8; RULE_LENGTH]
    ensures { result ≡ rule_bytes rule.now }
{
    [
        RuleFileKind::Rule as u8,
        rule.state,
        rule.line,
        rule.prefix,
        u8::from(rule.value),
    ]
}

// Writes the file of the list to the first bytes.
#[tactic(auto, using(crate::proofs::Records::file_length))]
fn put_rules(file: &mut [u8], list: &[Rule])
    requires { length (rules_bytes list.now) ≤ length file.old }
    ensures { file.new ≡ rules_bytes list.now ++ drop (length (rules_bytes list.now)) file.old }
{
    let mut filling = Filling::new(file);
    for rule in list {
        put(&mut filling, &rule_record(rule));
    }
    put(&mut filling, &[RuleFileKind::End as u8]);
}

// Writes the file of any list of rules to the first bytes lent. The file's length.
// Where the bytes do not suffice, they are as they were.
// By a rule of the project the bytes are lent: no heap, so no `Vec` of bytes.
pub fn write_rules(list: &[Rule], file: &mut [u8]) -> Result<usize, RuleFileFault>
    ensures outcome { Written list.now file.old file.new result }
    ensures within { IfOk result (λ k. k ≤ length file.new) }
{
    let needed = file_length(list);
    if file.len() < needed {
        return Err(RuleFileFault::FileRoom { needed });
    }
    put_rules(file, list);
    Ok(needed)
}
