// The five answers of a ban layer.
ghost use Rattle.std.specs.Prelude.{◌≡◌};
ghost use Rattle.layers.specs.Banned.{banned_meaning};
ghost use Rattle.layers.specs.Sound.{banned_within};

use crate::ban::is_banned;
use crate::layer::BanLayer;
use plant::{Condition, Plant};

// Whether the setting is safe below and no ban is true of the pair.
fn is_safe_under<P: Plant>(below: &P, bans: &[Condition], state: u32, setting: u32) -> bool
    ensures { result ≡ (banned_meaning (P.meaning below.now) bans.now).safe state setting }
{
    below.is_safe(state, setting) && !is_banned(bans, below.sizes(), state, setting)
}

impl<P: Plant> Plant for BanLayer<'_, '_, P> {
    ghost meaning = { λ x. banned_meaning (P.Plant.meaning x.below.now) x.bans.now };

    ghost sound = { λ x. banned_within (P.Plant.meaning x.below.now) x.bans.now (P.Plant.sound x.below.now) };

    fn state_bits(&self) -> u32 {
        self.below.state_bits()
    }

    fn lines(&self) -> u32 {
        self.below.lines()
    }

    fn is_start(&self, state: u32) -> bool {
        self.below.is_start(state)
    }

    fn is_safe(&self, state: u32, setting: u32) -> bool {
        is_safe_under(self.below, self.bans, state, setting)
    }

    fn follows(&self, state: u32, setting: u32, next: u32) -> bool {
        self.below.follows(state, setting, next)
    }
}
