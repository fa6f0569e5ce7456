// Clauses, and lists of them.
ghost use Rattle.std.specs.Prelude.{◌≡◌, bit_or};
ghost use Rattle.std.specs.List.{list_all, list_any};
ghost use Rattle.plan.specs.Clauses.{clause_true};
ghost use Rattle.plan.specs.Extension.{forced, letter_mask, with_letter};
ghost use Rattle.plan.specs.Items.{always, clash};

use plant::{Condition, has_bit};

// The condition that is always true.
pub(crate) const ALWAYS: Condition = Condition { ones: 0, zeros: 0 };

// The mask of one letter.
pub(crate) fn letter_mask(letter: u32) -> u32
    ensures { result ≡ letter_mask letter }
{
    if letter < 32 { 1 << letter } else { 0 }
}

// Where the condition is true, the letter has the value.
#[derive(Clone, Copy, PartialEq, Eq, Debug)]
pub struct Clause {
    pub letter: u32,
    pub value: bool,
    pub condition: Condition,
}

impl Clause {
    // The letters in its condition.
    pub(crate) fn named(&self) -> u32
        ensures { result ≡ bit_or self.now.condition.ones self.now.condition.zeros }
    {
        self.condition.ones | self.condition.zeros
    }

    // Whether the clause is true in the word: its condition is not, or its letter has its value.
    pub(crate) fn is_true(&self, word: u32) -> bool
        ensures { result ≡ clause_true word self.now }
    {
        !self.condition.holds(word) || has_bit(word, self.letter) == self.value
    }

    // The condition with the clause's letter more, at its value.
    pub(crate) fn forces(&self, forced: Condition) -> Condition
        ensures { result ≡ with_letter self.now.value self.now.letter forced }
    {
        let mask = letter_mask(self.letter);
        if self.value {
            Condition {
                ones: forced.ones | mask,
                ..forced
            }
        } else {
            Condition {
                zeros: forced.zeros | mask,
                ..forced
            }
        }
    }

    // Whether the two clauses are for one letter, have opposite values, and conditions that can be true together.
    // The letter first: each clause that is read is compared with all before it, and most are for another letter.
    pub(crate) fn clashes(&self, other: &Clause) -> bool
        ensures { result ≡ clash self.now other.now }
    {
        if self.letter != other.letter || self.value == other.value {
            return false;
        }
        let ones = self.condition.ones | other.condition.ones;
        let zeros = self.condition.zeros | other.condition.zeros;
        ones & zeros == 0
    }
}

// Whether each clause, taken in file order, is true in the word.
pub(crate) fn all_true(clauses: &[Clause], word: u32) -> bool
    ensures { result ≡ list_all (clause_true word) clauses.now }
{
    // A `for` and no `all`: that clauses are gone through in file order, one test each, stands here in so many words by a rule of the project.
    for clause in clauses {
        if !clause.is_true(word) {
            return false;
        }
    }
    true
}

// Whether the clause clashes with one of the list.
pub(crate) fn some_clash(clauses: &[Clause], clause: &Clause) -> bool
    ensures { result ≡ list_any (clash clause.now) clauses.now }
{
    clauses.iter().any(|other| clause.clashes(other))
}

// What the next clauses force in the word: the condition that a state has to meet to follow.
fn forced_condition(nexts: &[Clause], word: u32) -> Condition
    ensures { result ≡ forced word nexts.now always }
{
    nexts
        .iter()
        .filter(|clause| clause.condition.holds(word))
        .fold(ALWAYS, |forced, clause| clause.forces(forced))
}

// The bits that the next clauses force in the word, to one and to zero: a pair, by a rule of the project.
pub(crate) fn forced_bits(nexts: &[Clause], word: u32) -> (u32, u32)
    ensures { result ≡ ((forced word nexts.now always).ones, (forced word nexts.now always).zeros) }
{
    let forced = forced_condition(nexts, word);
    (forced.ones, forced.zeros)
}
