// Laying bans over a plant.
ghost use Rattle.std.specs.Prelude.{◌≡◌, MatchResult};
ghost use Rattle.layers.specs.Outcome.{Laid, TurnedAway};

use crate::fault::LayerFault;
use crate::layer::{BanLayer, MAX_BANS};
use plant::{Condition, Plant, first_misfit};

// Whether the bans may be laid over the plant: one too many is told first, then the first with a letter past the state bits and lines.
// A function apart: its proof file says what follows in words, and the caller needs none.
fn check<P: Plant>(below: &P, bans: &[Condition]) -> Result<(), LayerFault>
    ensures { MatchResult result (λ _. Laid (P.meaning below.now) bans.now) (λ f. TurnedAway (P.meaning below.now) bans.now f) }
{
    if bans.len() > MAX_BANS {
        return Err(LayerFault::TooManyBans);
    }
    if let Some(index) = first_misfit(bans, below.sizes()) {
        return Err(LayerFault::BanBeyond { index });
    }
    Ok(())
}

impl<'p, 'b, P: Plant> BanLayer<'p, 'b, P> {
    // The bans laid over the plant; a 17th ban is refused first, then the first ban with a letter past the state bits and lines.
    pub fn new(below: &'p P, bans: &'b [Condition]) -> Result<BanLayer<'p, 'b, P>, LayerFault>
        ensures { MatchResult result (λ x. (x.below.now ≡ below.now) × (x.bans.now ≡ bans.now) × Laid (P.meaning below.now) bans.now) (λ f. TurnedAway (P.meaning below.now) bans.now f) }
    {
        check(below, bans)?;
        Ok(BanLayer { below, bans })
    }
}
