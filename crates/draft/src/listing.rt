// The rules of a draft, written into lent places.
ghost use Rattle.std.specs.Prelude.{◌≡◌, ◌-◌, ◌^◌, ◌<◌, ◌≤◌, ◌&&◌, [], ◌∷◌, length};
ghost use Rattle.std.specs.Option.{option_to_list};
ghost use Rattle.plant.specs.Bits.{bit};
ghost use Rattle.plant.specs.Meaning.{states};
ghost use Rattle.rules.specs.Listing.{goes_on, some_open, rule_at, rules_of_line, rules_of_state, rules_of};
ghost use Rattle.filling.specs.Adding.{Added, HasRoom};
ghost use Rattle.filling.specs.Writing.{Wrote};
ghost use Rattle.draft.specs.Rows.{places_needed};

use filling::Filling;
use plant::{Plant, Row, Sizes, has_bit};
use rules::Rule;

// The row of a state, while its rules are listed.
#[derive(Clone, Copy)]
struct Listed {
    sizes: Sizes,
    state: u8,
    row: Row,
}

// Writes one rule. There is room for it, so it is not turned away;
// by `?` each caller would hand on a fault that can not come.
fn put(rules: &mut Filling<'_, Rule>, rule: Rule)
    requires { HasRoom rules.old 1 }
    ensures { Added rules.old rules.new (rule ∷ []) }
{
    let _ = rules.push(rule);
}

impl Listed {
    // Whether setting `a` is open, begins with `prefix` on the lines below `line`, and has `line` at `value`.
    fn goes_on(&self, a: u32, line: u32, prefix: u32, value: bool) -> bool
        requires { line < self.now.sizes.lines }
        ensures { result ≡ (bit self.now.row a && goes_on a line prefix value) }
    {
        has_bit(u32::from(self.row), a) && a % (1 << line) == prefix && has_bit(a, line) == value
    }

    // Whether some open setting begins with `prefix` and has `line` at `value`.
    fn some_open(&self, line: u32, prefix: u32, value: bool) -> bool
        requires { line < self.now.sizes.lines }
        ensures { result ≡ some_open self.now.sizes.lines self.now.row line prefix value }
    {
        (0..self.sizes.settings()).any(|a| self.goes_on(a, line, prefix, value))
    }

    // The rule for `line` after `prefix`, where the open settings leave the line just one value.
    fn standing_rule(&self, line: u32, prefix: u32) -> Option<Rule>
        requires a_line { line < self.now.sizes.lines }
        requires a_prefix { prefix < 2 ^ line }
        ensures { option_to_list result ≡ rule_at self.now.sizes.lines self.now.row self.now.state line prefix }
    {
        let on = self.some_open(line, prefix, true);
        let off = self.some_open(line, prefix, false);
        if on == off {
            return None;
        }
        // Both casts are proved to lose nothing, and `u8::try_from` has a fault that can not come here.
        Some(Rule {
            state: self.state,
            line: line as u8,
            prefix: prefix as u8,
            value: on,
        })
    }

    // Writes the rules for `line`, by prefix.
    fn write_line(&self, line: u32, rules: &mut Filling<'_, Rule>)
        requires a_line { line < self.now.sizes.lines }
        requires room { HasRoom rules.old (2 ^ line) }
        ensures { Added rules.old rules.new (rules_of_line self.now.sizes.lines self.now.row self.now.state line) }
    {
        for prefix in 0..1 << line {
            if let Some(rule) = self.standing_rule(line, prefix) {
                put(rules, rule);
            }
        }
    }

    // Writes the rules of the state, by line and prefix.
    fn write(&self, rules: &mut Filling<'_, Rule>)
        requires { HasRoom rules.old (2 ^ self.now.sizes.lines - 1) }
        ensures { Added rules.old rules.new (rules_of_state self.now.sizes.lines self.now.row self.now.state) }
    {
        for line in 0..self.sizes.lines() {
            self.write_line(line, rules);
        }
    }
}

// Writes the rules of all rows, by state, line and prefix, from the first place on. Their number.
pub(crate) fn write_rules<P: Plant>(plant: &P, rows: &[Row], rules: &mut [Rule]) -> usize
    requires each_state { length rows.now ≡ states (P.meaning plant.now) }
    requires places { places_needed (P.meaning plant.now) ≤ length rules.old }
    ensures { Wrote rules.old rules.new 0 result (rules_of (P.meaning plant.now).bits (P.meaning plant.now).lines rows.now) }
{
    let sizes = plant.sizes();
    let mut filling = Filling::new(rules);
    for (state, row) in rows.iter().enumerate() {
        let state = state as u8;
        let row = *row;
        Listed { sizes, state, row }.write(&mut filling);
    }
    filling.len()
}
