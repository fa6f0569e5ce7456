// The record of a clause or ban.
ghost use Rattle.std.specs.Prelude.{◌≡◌, ◌+◌, ◌^◌, ◌<◌, ◌==◌, false, cond, length, nat_le, Some, None, MatchOption};
ghost use Rattle.plan.specs.Items.{always, byte, clause_at, condition_at, item_fits, mask_at};
ghost use Rattle.plan.specs.Kinds.{Says, fits_in, in_order, item_code};

use crate::clause::{ALWAYS, Clause};
use crate::kind::ItemKind;
use crate::sizes::PlanSizes;
use plant::Condition;
use records::byte_at;

// A clause or a ban.
#[derive(Clone, Copy, PartialEq, Eq, Debug)]
pub(crate) enum Item {
    // The value of a state bit at the start; the condition is always true.
    Start(Clause),
    // The value of a state bit at the next tick.
    Next(Clause),
    // The value of an auxiliary in the same tick.
    Auxiliary(Clause),
    // What must never be true.
    Ban(Condition),
}

impl Item {
    // Whether letter and masks are in order: a letter of the right sort, no letter in a mask beyond those there are.
    fn fits(&self, sizes: PlanSizes) -> bool
        ensures { result ≡ fits_in sizes self.now }
    {
        match self {
            Item::Start(clause) | Item::Next(clause) => {
                clause.letter < sizes.pair.state_bits() && sizes.has_letters_of(clause.condition)
            }
            Item::Auxiliary(clause) => {
                sizes.first_auxiliary() <= clause.letter
                    && clause.letter < sizes.letters()
                    && sizes.has_letters_of(clause.condition)
            }
            Item::Ban(condition) => sizes.has_letters_of(*condition),
        }
    }
}

// A mask: four bytes, most significant first.
fn mask_at(bytes: &[u8], i: usize) -> u32
    requires { i + 16 < 2 ^ 64 }
    ensures { result ≡ mask_at bytes.now i }
{
    u32::from_be_bytes([
        byte_at(bytes, i),
        byte_at(bytes, i + 1),
        byte_at(bytes, i + 2),
        byte_at(bytes, i + 3),
    ])
}

// A ones mask and then a zeros mask.
fn condition_at(bytes: &[u8], i: usize) -> Condition
    requires { i + 32 < 2 ^ 64 }
    ensures { result ≡ condition_at bytes.now i }
{
    let ones = mask_at(bytes, i);
    let zeros = mask_at(bytes, i + 4);
    Condition { ones, zeros }
}

// The clause whose letter and value stand at `i`, where the value is 0 or 1.
fn clause_at(bytes: &[u8], i: usize, condition: Condition) -> Option<Clause>
    requires { i + 16 < 2 ^ 64 }
    ensures { result ≡ cond (nat_le (byte bytes.now (i + 1)) 1) (Some (record { letter = byte bytes.now i; value = byte bytes.now (i + 1) == 1; condition = condition })) None }
{
    let letter = u32::from(byte_at(bytes, i));
    let value = match byte_at(bytes, i + 1) {
        0 => false,
        1 => true,
        _ => return None,
    };
    Some(Clause {
        letter,
        value,
        condition,
    })
}

// What the record at `offset` says, where letter, value and masks are in order.
pub(crate) fn item_at(sizes: PlanSizes, bytes: &[u8], offset: usize, kind: ItemKind) -> Option<Item>
    requires { offset < length bytes.now }
    ensures { MatchOption result (in_order sizes bytes.now offset (item_code kind) ≡ false) (λ i. Says sizes bytes.now offset (item_code kind) i) }
{
    let item = match kind {
        ItemKind::Start => Item::Start(clause_at(bytes, offset + 1, ALWAYS)?),
        ItemKind::Next => {
            Item::Next(clause_at(bytes, offset + 1, condition_at(bytes, offset + 3))?)
        }
        ItemKind::Auxiliary => {
            Item::Auxiliary(clause_at(bytes, offset + 1, condition_at(bytes, offset + 3))?)
        }
        ItemKind::Ban => Item::Ban(condition_at(bytes, offset + 1)),
    };
    if item.fits(sizes) { Some(item) } else { None }
}
