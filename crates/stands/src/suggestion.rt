// What a stand suggests, among the settings that fit.
ghost use Rattle.std.specs.Prelude.{◌≡◌, MatchOption};
ghost use Rattle.std.specs.List.{find, range_with_len};
ghost use Rattle.plant.specs.Meaning.{settings};
ghost use Rattle.reader.specs.Step.{fits_there};
ghost use Rattle.stands.specs.Suggestion.{LowestFit, NoneFits, Suggests};

use crate::either::AwaitsSetting;
use plant::Plant;
use rules::RuledPlant;

// The lowest setting that fits in this state.
// A function apart: its proof file says what follows in words, and the caller needs none.
fn lowest_fit<P: Plant>(ruled: &RuledPlant<'_, P>, state: u32) -> Option<u32>
    ensures value { result ≡ find (fits_there (P.meaning ruled.now.plant.now) ruled.now.rules.now state) (range_with_len 0 (settings (P.meaning ruled.now.plant.now))) }
    ensures in_words { MatchOption result (NoneFits (P.meaning ruled.now.plant.now) ruled.now.rules.now state) (λ a. LowestFit (P.meaning ruled.now.plant.now) ruled.now.rules.now state a) }
{
    (0..ruled.plant.settings()).find(|setting| ruled.fits(state, *setting))
}

impl AwaitsSetting {
    // The setting that the console suggests: the lowest that fits, none where no setting fits.
    pub fn suggestion<P: Plant>(&self, ruled: &RuledPlant<'_, P>) -> Option<u32>
        ensures { Suggests (P.meaning ruled.now.plant.now) ruled.now.rules.now self.now.state result }
    {
        lowest_fit(ruled, self.state)
    }
}
