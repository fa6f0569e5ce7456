// Auxiliaries that depend on themselves.
ghost use Rattle.std.specs.Prelude.{◌≡◌, ◌+◌, ◌^◌};
ghost use Rattle.plan.specs.Loops.{gathered, reached, first_loop};

use crate::clause::{Clause, letter_mask};
use crate::sizes::PlanSizes;
use plant::has_bit;

// The letters found so far, and those in conditions of clauses for the letters of `roots`.
fn gather(clauses: &[Clause], roots: u32, found: u32) -> u32
    ensures { result ≡ gathered clauses.now roots found }
{
    clauses
        .iter()
        .filter(|clause| has_bit(roots, clause.letter))
        .fold(found, |all, clause| all | clause.named())
}

// The letters that `letter` depends on: gathered in rounds, until a round finds no more.
fn reach(clauses: &[Clause], letter: u32, rounds: u32) -> u32
    ensures { result ≡ reached clauses.now rounds letter }
{
    let mut found = gather(clauses, letter_mask(letter), 0);
    // No chain: a fold would run all of the rounds.
    for round in 0..rounds {
        let more = gather(clauses, found, found);
        if more == found {
            return found;
        }
        found = more;
    }
    found
}

// The lowest auxiliary that depends on itself. Each round but the last finds a larger set of letters, so there are fewer rounds than such sets.
pub(crate) fn first_looping(sizes: PlanSizes, clauses: &[Clause]) -> Option<u32>
    ensures { result ≡ first_loop clauses.now (2 ^ (sizes.pair.state_bits + sizes.pair.lines + sizes.auxiliaries)) (sizes.pair.state_bits + sizes.pair.lines) sizes.auxiliaries }
{
    let rounds = 1 << sizes.letters();
    (sizes.first_auxiliary()..sizes.letters()).find(|letter| has_bit(
        reach(clauses, *letter, rounds),
        *letter,
    ))
}
