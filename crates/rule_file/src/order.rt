// Whether a rule may stand where it stands in a file.
ghost use Rattle.std.specs.Prelude.{◌≡◌, ◌+◌, ◌≤◌, length};
ghost use Rattle.rule_file.specs.Order.{before, comes_after};
ghost use Rattle.rule_file.specs.Reading.{rule_at, stands_next};

use plant::Sizes;
use rules::Rule;

// The rule whose record begins at `offset`.
pub(crate) fn rule_at(bytes: &[u8], offset: usize) -> Rule
    requires { offset + 5 ≤ length bytes.now }
    ensures { result ≡ rule_at bytes.now offset }
{
    Rule {
        state: bytes[offset + 1],
        line: bytes[offset + 2],
        prefix: bytes[offset + 3],
        value: bytes[offset + 4] == 1,
    }
}

// Whether `first` comes before `second`: by state, then line, then prefix.
// By hand: a derived order would read the value too.
fn comes_before(first: Rule, second: Rule) -> bool
    ensures { result ≡ before first second }
{
    (first.state, first.line, first.prefix) < (second.state, second.line, second.prefix)
}

// Whether the rule comes after the one before it, where there is one.
fn comes_after(last: Option<Rule>, rule: Rule) -> bool
    ensures { result ≡ comes_after last rule }
{
    last.is_none_or(|before| comes_before(before, rule))
}

// Whether the rule at `offset` may stand there: its value is 0 or 1, it is in range, and it comes after the one before it.
pub(crate) fn stands_next(sizes: Sizes, last: Option<Rule>, bytes: &[u8], offset: usize) -> bool
    requires { offset + 5 ≤ length bytes.now }
    ensures { result ≡ stands_next sizes.state_bits sizes.lines last bytes.now offset }
{
    let rule = rule_at(bytes, offset);
    bytes[offset + 4] <= 1
        && (rule.in_range(sizes.state_bits(), sizes.lines()) && comes_after(last, rule))
}
