// The five answers of a clause plan.
ghost use Rattle.std.specs.Prelude.{◌≡◌, ◌^◌, ◌<◌, not};
ghost use Rattle.plant.specs.Bounded.{all_below, any_below};
ghost use Rattle.plan.specs.Counted.{Counted};
ghost use Rattle.plan.specs.Held.{parts_of};
ghost use Rattle.plan.specs.Machine.{allows, banned, extension, is_pair, plan_meaning};
ghost use Rattle.plan.specs.Sound.{plan_sound};

use crate::clause::{all_true, forced_bits};
use crate::plan::{Counts, Plan};
use plant::{Condition, Plant, some_holds};

impl Plan {
    // How many auxiliaries, start clauses, next clauses, auxiliary clauses and bans the plan has.
    pub fn counts(&self) -> Counts
        ensures { Counted (parts_of self.now) result }
    {
        Counts {
            auxiliaries: self.sizes.auxiliaries,
            starts: self.starts.len(),
            nexts: self.nexts.len(),
            auxes: self.auxes.len(),
            bans: self.bans.len(),
        }
    }

    // Whether this is a pair of the plan.
    fn has_pair(&self, state: u32, setting: u32) -> bool
        ensures { result ≡ is_pair (parts_of self.now) state setting }
    {
        state < self.states() && setting < self.settings()
    }

    // The extension of the pair by the assignment `x` of the auxiliaries: a word of all letters, state bits first, then lines, then auxiliaries.
    // The two numbers of a pair are no struct: it would carry the plan's sizes, and each contract would say that they are this plan's.
    fn extended(&self, state: u32, setting: u32, x: u32) -> u32
        requires state_is { state < 2 ^ self.now.sizes.pair.state_bits }
        requires setting_is { setting < 2 ^ self.now.sizes.pair.lines }
        requires assignment_is { x < 2 ^ self.now.sizes.auxiliaries }
        ensures { result ≡ extension (parts_of self.now) state setting x }
    {
        let pair = self.sizes.pair.pair_word(state, setting);
        pair | x << self.sizes.first_auxiliary()
    }

    // Whether the word fits the auxiliary clauses and some ban is true in it.
    fn is_banned(&self, word: u32) -> bool
        ensures { result ≡ banned (parts_of self.now) word }
    {
        all_true(self.auxes.as_slice(), word) && some_holds(self.bans.as_slice(), word)
    }

    // Whether the word fits the auxiliary clauses and forces no bit against `next`.
    // Of a word that does not fit the next clauses are not asked: there may be 255 such words to one that fits.
    fn does_allow(&self, word: u32, next: u32) -> bool
        ensures { result ≡ allows (parts_of self.now) next word }
    {
        if !all_true(self.auxes.as_slice(), word) {
            return false;
        }
        let (ones, zeros) = forced_bits(self.nexts.as_slice(), word);
        Condition { ones, zeros }.holds(next)
    }

    // Whether no fitting extension of the pair makes a ban true.
    fn never_banned(&self, state: u32, setting: u32) -> bool
        requires state_is { state < 2 ^ self.now.sizes.pair.state_bits }
        requires setting_is { setting < 2 ^ self.now.sizes.pair.lines }
        ensures { result ≡ all_below (λ x. not (banned (parts_of self.now) (extension (parts_of self.now) state setting x))) (2 ^ self.now.sizes.auxiliaries) }
    {
        (0..self.sizes.assignments()).all(|x| !self.is_banned(self.extended(state, setting, x)))
    }

    // Whether some fitting extension of the pair forces no bit against `next`.
    fn some_allow(&self, state: u32, setting: u32, next: u32) -> bool
        requires state_is { state < 2 ^ self.now.sizes.pair.state_bits }
        requires setting_is { setting < 2 ^ self.now.sizes.pair.lines }
        ensures { result ≡ any_below (λ x. allows (parts_of self.now) next (extension (parts_of self.now) state setting x)) (2 ^ self.now.sizes.auxiliaries) }
    {
        (0..self.sizes.assignments()).any(|x| self.does_allow(
            self.extended(state, setting, x),
            next,
        ))
    }
}

impl Plant for Plan {
    ghost meaning = { λ x. plan_meaning (parts_of x) };

    ghost sound = { plan_sound };

    fn state_bits(&self) -> u32 {
        self.sizes.pair.state_bits()
    }

    fn lines(&self) -> u32 {
        self.sizes.pair.lines()
    }

    fn is_start(&self, state: u32) -> bool {
        state < self.states() && all_true(self.starts.as_slice(), state)
    }

    fn is_safe(&self, state: u32, setting: u32) -> bool {
        self.has_pair(state, setting) && self.never_banned(state, setting)
    }

    fn follows(&self, state: u32, setting: u32, next: u32) -> bool {
        self.has_pair(state, setting)
            && next < self.states()
            && self.some_allow(state, setting, next)
    }
}
