// Bans: conditions over the letters of a pair, state bits first, then lines. A pair in which one is true is banned.
ghost use Rattle.std.specs.Prelude.{◌≡◌, ◌^◌, ◌<◌};
ghost use Rattle.plant.specs.Conditions.{holds, pair_word};
ghost use Rattle.std.specs.List.{list_any};

use plant::{Condition, Sizes, some_holds};

// Whether some ban is true of the pair.
pub(crate) fn is_banned(bans: &[Condition], sizes: Sizes, state: u32, setting: u32) -> bool
    requires state { state < 2 ^ sizes.state_bits }
    requires setting { setting < 2 ^ sizes.lines }
    ensures { result ≡ list_any (λ ban. holds ban (pair_word sizes.state_bits state setting)) bans.now }
{
    some_holds(bans, sizes.pair_word(state, setting))
}
