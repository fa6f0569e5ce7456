// Counting the cases of a list at which a program agrees.
#![tactic(auto)]

ghost use Rattle.std.specs.Prelude.{◌≡◌, Some};
ghost use Rattle.tally.specs.Counting.{counted, tally_words};

use std::fmt;

// How many cases there are, and at how many of them the program agrees.
#[derive(Clone, Copy, PartialEq, Eq, Default, Debug)]
pub struct Tally {
    pub agreed: usize,
    pub all: usize,
}

impl fmt::Display for Tally {
    ghost output = { λ t. Some (tally_words t) };

    fn fmt<W: fmt::Write>(&self, f: &mut fmt::Formatter<W>) -> fmt::Result {
        let agreed = self.agreed;
        let all = self.all;
        write!(f, "{agreed} of {all}")
    }
}

impl Tally {
    // Counts one more case; the largest number stays.
    pub fn count(&mut self, agrees: bool)
        ensures { self.new ≡ counted self.old agrees }
    {
        self.agreed = self.agreed.saturating_add(usize::from(agrees));
        self.all = self.all.saturating_add(1);
    }
}

#[cfg(test)]
mod tests {
    use crate::Tally;

    #[test]
    fn cases_are_counted_and_those_that_agree(rt: HostRuntime) {
        let mut tally = Tally::default();
        for agrees in [true, false, true] {
            tally.count(agrees);
        }
        assert_eq!(rt; tally, Tally { agreed: 2, all: 3 });
    }
}
