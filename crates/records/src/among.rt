// Records of the kinds in a list, which may be made as the program runs.
ghost use Rattle.std.specs.Prelude.{◌≡◌, ◌==◌, Some, None, MatchOption, option_map};
ghost use Rattle.std.specs.List.{find};
ghost use Rattle.records.specs.declared.among.Kind.{Kind as ListedKind};
ghost use Rattle.records.specs.Reading.{body_length, record_at};
ghost use Rattle.records.specs.Typed.{by_code};

use crate::{BytesFault, Record, whole_record};

// A kind of record by its code, and how many bytes its body has.
#[derive(Clone, Copy, PartialEq, Eq, Debug)]
pub struct Kind {
    pub code: u8,
    pub body: usize,
}

// The first kind of the list with this code.
fn find_kind(kinds: &[Kind], code: u8) -> Option<&Kind>
    ensures { option_map (λ k. k.now) result ≡ find (λ (k : ListedKind). k.code == code) kinds.now }
{
    kinds.iter().find(|kind| kind.code == code)
}

// The same, by the length of its body.
#[tactic(auto, using(crate::proofs::Listing::length_found))]
fn kind_of(kinds: &[Kind], code: u8) -> Option<&Kind>
    ensures { MatchOption result (body_length kinds.now code ≡ None) (λ k. body_length kinds.now code ≡ Some k.now.body) }
{
    find_kind(kinds, code)
}

// The record at `offset`, by the code of its kind: a byte is there, its kind is in the list, its body is complete.
pub fn record_among(bytes: &[u8], kinds: &[Kind], offset: usize) -> Result<Record<u8>, BytesFault>
    ensures { by_code (λ code. code) result ≡ record_at bytes.now kinds.now offset }
{
    let Some(&code) = bytes.get(offset) else {
        return Err(BytesFault::Unfinished { offset });
    };
    let Some(kind) = kind_of(kinds, code) else {
        return Err(BytesFault::UnknownKind { offset });
    };
    whole_record(bytes, offset, code, kind.body)
}
