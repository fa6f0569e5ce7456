// Conditions over the letters of a word: bit i of a word or of a mask stands for letter i.
ghost use Rattle.std.specs.Prelude.{◌≡◌};
ghost use Rattle.plant.specs.Conditions.{holds, masks_below};
ghost use Rattle.std.specs.List.{list_any};

// A condition is true in a word where each letter of `ones` is 1 and each letter of `zeros` is 0.
#[derive(Clone, Copy, PartialEq, Eq, Debug)]
pub struct Condition {
    pub ones: u32,
    pub zeros: u32,
}

impl Condition {
    // Whether the condition is true in the word.
    pub fn holds(&self, word: u32) -> bool
        ensures { result ≡ holds self.now word }
    {
        word & self.ones == self.ones && word & self.zeros == 0
    }

    // Whether no letter of either mask lies past so many.
    pub fn within(&self, letters: u32) -> bool
        ensures { result ≡ masks_below letters self.now }
    {
        let ones = self.ones;
        let zeros = self.zeros;
        letters >= 32 || (ones < 1 << letters && zeros < 1 << letters)
    }
}

// Whether some condition of the list is true in the word.
pub fn some_holds(conditions: &[Condition], word: u32) -> bool
    ensures { result ≡ list_any (λ c. holds c word) conditions.now }
{
    conditions.iter().any(|condition| condition.holds(word))
}
