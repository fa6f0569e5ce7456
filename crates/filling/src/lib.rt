// A list that grows in lent places.
#![tactic(auto)]

ghost use Rattle.std.specs.Prelude.{◌≤◌, length};

// There are not as many places left as are needed.
#[derive(Clone, Copy, PartialEq, Eq, Debug)]
pub struct Full;

// Lent places, of which the first are filled.
#[derive(Drop)]
pub struct Filling<'a, T> {
    places: &'a mut [T],
    filled: usize,
    // No more are filled than there are.
    ghost within: { filled ≤ length places.now },
}

impl<'a, T: Copy> Filling<'a, T> {
    ghost use Rattle.std.specs.Prelude.{◌≡◌, [], ◌∷◌, length, MatchResult};
    ghost use Rattle.filling.specs.Adding.{Added, HasRoom};

    // None of the places is filled.
    pub fn new(places: &'a mut [T]) -> Filling<'a, T>
        ensures same_places { result.places.ghost_name ≡ places.entry.ghost_name }
        ensures as_before { result.places.now ≡ places.old }
        ensures none { result.filled ≡ 0 }
    {
        Filling { places, filled: 0 }
    }

    // How many places are filled.
    pub fn len(&self) -> usize
        ensures { result ≡ self.now.filled }
    {
        self.filled
    }

    // Fills the next place; where none is left, nothing is changed.
    pub fn push(&mut self, item: T) -> Result<(), Full>
        ensures { MatchResult result (λ _. Added self.old self.new (item ∷ [])) (λ _. (HasRoom self.old 1 → ⊥) × (self.new ≡ self.old)) }
    {
        if self.filled >= self.places.len() {
            return Err(Full);
        }
        self.places[self.filled] = item;
        self.filled += 1;
        Ok(())
    }

    // Fills the next places with the items; where they are too many, nothing is changed.
    pub fn extend_from_slice(&mut self, items: &[T]) -> Result<(), Full>
        ensures { MatchResult result (λ _. Added self.old self.new items.now) (λ _. (HasRoom self.old (length items.now) → ⊥) × (self.new ≡ self.old)) }
    {
        if items.len() > self.places.len() - self.filled {
            return Err(Full);
        }
        let end = self.filled + items.len();
        self.places[self.filled..end].copy_from_slice(items);
        self.filled = end;
        Ok(())
    }
}
