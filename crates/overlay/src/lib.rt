// Rows of two drafts laid over each other, and that they are no draft.
#![tactic(auto)]

ghost use Rattle.std.specs.Prelude.{◌≡◌, ℕ, ◌&&◌, bit_and};
ghost use Rattle.plant.specs.Bits.{bit};
ghost use Rattle.overlay.specs.Together.{WithinEach, SmallerTogether};

use plant::Row;

// The settings that both rows have open. Where they are rows of drafts under two lists of bans, the draft under all the bans
// has no more open than that, and may have less: what can follow a setting may be shut out by the two lists together alone.
pub fn overlaid(first: Row, second: Row) -> Row
    ensures value { result ≡ bit_and first second }
    ensures both { (a : ℕ) → bit result a ≡ (bit first a && bit second a) }
    ensures within_each { WithinEach }
    ensures smaller_together { SmallerTogether }
{
    first & second
}
