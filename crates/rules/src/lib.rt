// Drive rules: what a rule is, and whether a setting fits a list of them.
#![tactic(auto)]

ghost use Rattle.std.specs.Prelude.{◌≡◌, ◌^◌, ◌<◌, Some, Decides, nat_lt};
ghost use Rattle.plant.specs.Meaning.{most_lines};
ghost use Rattle.rules.specs.Shown.{rule_line};
ghost use Rattle.rules.specs.Fitting.{in_range, applies, breaks, fits, Fits};

use plant::{MAX_LINES, MAX_STATES, Plant, Sizes, has_bit};
use std::fmt;

// The most rules that there can be: one for each state, line and prefix.
pub const MAX_RULES: usize = MAX_STATES * ((1 << MAX_LINES) - 1);

// In `state`, if the lines below `line` are set as `prefix`, then `line` has `value`.
#[derive(Clone, Copy, PartialEq, Eq, Default, Debug)]
pub struct Rule {
    pub state: u8,
    pub line: u8,
    pub prefix: u8,
    pub value: bool,
}

impl fmt::Display for Rule {
    ghost output = { λ r. Some (rule_line r) };

    fn fmt<W: fmt::Write>(&self, f: &mut fmt::Formatter<W>) -> fmt::Result {
        let state = self.state;
        let line = self.line;
        let prefix = self.prefix;
        let value = u8::from(self.value);
        write!(f, "state {state} line {line} prefix {prefix} value {value}")
    }
}

// Whether the byte is below 2 to the power k.
fn below_power(byte: u8, k: u32) -> bool
    ensures { result ≡ nat_lt byte (2 ^ k) }
{
    k >= 8 || u32::from(byte) < 1 << k
}

impl Rule {
    // Whether the rule is of a state, a line and a prefix that there is: one out of range binds nothing.
    // Two numbers and no `Sizes`, which would ask the caller to have sizes within the limits.
    pub fn in_range(&self, state_bits: u32, lines: u32) -> bool
        ensures { result ≡ in_range state_bits lines self.now }
    {
        below_power(self.state, state_bits)
            && u32::from(self.line) < lines
            && below_power(self.prefix, u32::from(self.line))
    }

    // Whether the rule speaks of this state and of settings that begin as this one.
    fn applies(&self, state: u32, setting: u32) -> bool
        requires { self.now.line < most_lines }
        ensures { result ≡ applies self.now state setting }
    {
        u32::from(self.state) == state && setting % (1 << self.line) == u32::from(self.prefix)
    }

    // Whether the setting breaks the rule in this state.
    fn breaks(&self, sizes: Sizes, state: u32, setting: u32) -> bool
        ensures { result ≡ breaks sizes.state_bits sizes.lines self.now state setting }
    {
        self.in_range(sizes.state_bits(), sizes.lines())
            && self.applies(state, setting)
            && has_bit(setting, u32::from(self.line)) != self.value
    }
}

// Whether the setting breaks none of the rules in this state.
// A function apart: its proof file says what follows in words, and the caller needs none.
fn breaks_none(sizes: Sizes, rules: &[Rule], state: u32, setting: u32) -> bool
    ensures value { result ≡ fits sizes.state_bits sizes.lines rules.now state setting }
    ensures in_words { Decides result (Fits sizes.state_bits sizes.lines rules.now state setting) }
{
    rules.iter().all(|rule| !rule.breaks(sizes, state, setting))
}

// A plant, and drive rules that are to hold on it.
#[derive(Drop)]
pub struct RuledPlant<'a, P> {
    pub plant: &'a P,
    pub rules: &'a [Rule],
}

impl<P: Plant> RuledPlant<'_, P> {
    // Whether the setting fits: it breaks none of the rules in this state.
    pub fn fits(&self, state: u32, setting: u32) -> bool
        ensures value { result ≡ fits (P.meaning self.now.plant.now).bits (P.meaning self.now.plant.now).lines self.now.rules.now state setting }
        ensures in_words { Decides result (Fits (P.meaning self.now.plant.now).bits (P.meaning self.now.plant.now).lines self.now.rules.now state setting) }
    {
        breaks_none(self.plant.sizes(), self.rules, state, setting)
    }
}
