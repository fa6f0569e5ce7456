// Records: one byte of kind and a body whose length the kind fixes. Plans, rule files and log files are made of them.
#![tactic(auto)]

ghost use Rattle.std.specs.Prelude.{◌≡◌, ℕ, ◌+◌, ◌-◌, ◌<◌, cond, List, length, Ok, Err, nat_lt, option_map, slice_index};
ghost use Rattle.records.specs.Reading.{body_length, known, record_at};
ghost use Rattle.records.specs.Typed.{by_code};
ghost use Rattle.records.specs.Faults.{bytes_refusal};
ghost use Rattle.records.specs.Ending.{Ended};
ghost use Rattle.records.specs.declared.BytesFault.TheVariants.{Unfinished};
ghost use Rattle.records.specs.declared.among.Kind.{Kind as ListedKind};

mod among;

pub use among::{Kind, record_among};
use refusal::{Layer, Refusal};

// The kinds of record of one sort of file.
pub trait FileKind: Copy {
    // The code of each kind, and how many bytes its body has.
    ghost kinds: { List ListedKind };

    // The code of a kind.
    ghost code: { Self → ℕ };

    // The kind that this byte stands for, where there is one.
    // Not `TryFrom`: each sort of file would need an error type, and a law that says what the clause says here.
    fn from_code(byte: u8) -> Option<Self>
        ensures { option_map code result ≡ known kinds byte };

    // How many bytes the body of this kind has.
    fn body(self) -> usize
        ensures { body_length kinds (code self) ≡ Some result };
}

// A record: it begins at `offset` with its kind, and its body lies before `end`.
#[derive(Clone, Copy, PartialEq, Eq, Debug)]
pub struct Record<K> {
    pub offset: usize,
    pub kind: K,
    pub end: usize,
}

// What is wrong with the bytes of a file.
#[derive(Clone, Copy, PartialEq, Eq, Debug)]
pub enum BytesFault {
    // 1, the offset: the input ends inside the record at this offset, or where a record should begin.
    Unfinished { offset: usize },
    // 2, the offset: no record of this file has the kind that stands at this offset.
    UnknownKind { offset: usize },
    // 7, the offset: a byte stands after the end record.
    AfterEnd { offset: usize },
}

impl BytesFault {
    // The fault's number, place and layer.
    // No `From`: want of memory has no refusal, and one spelling serves every fault.
    pub fn refusal(&self) -> Refusal
        ensures { result ≡ bytes_refusal self.now }
    {
        let (number, place) = match self {
            BytesFault::Unfinished { offset } => (1, *offset),
            BytesFault::UnknownKind { offset } => (2, *offset),
            BytesFault::AfterEnd { offset } => (7, *offset),
        };
        Refusal::new(number, place, Layer::Bytes)
    }
}

// The byte at `i`, 0 past the end.
pub fn byte_at(bytes: &[u8], i: usize) -> u8
    ensures { result ≡ slice_index bytes.now i }
{
    bytes.get(i).copied().unwrap_or(0)
}

// The record of this kind at `offset`, where the bytes of its body are all there.
fn whole_record<K: Copy>(
    bytes: &[u8],
    offset: usize,
    kind: K,
    body: usize,
) -> Result<Record<K>, BytesFault>
    requires { offset < length bytes.now }
    ensures { result ≡ cond (nat_lt (length bytes.now - offset - 1) body) (Err (Unfinished offset)) (Ok (record { offset = offset; kind = kind; end = offset + 1 + body })) }
{
    if bytes.len() - offset - 1 < body {
        return Err(BytesFault::Unfinished { offset });
    }
    let end = offset + 1 + body;
    Ok(Record { offset, kind, end })
}

// The record at `offset`: a byte is there, its kind is known, its body is complete.
pub fn record_at<K: FileKind>(bytes: &[u8], offset: usize) -> Result<Record<K>, BytesFault>
    ensures { by_code K.code result ≡ record_at bytes.now K.kinds offset }
{
    let Some(&code) = bytes.get(offset) else {
        return Err(BytesFault::Unfinished { offset });
    };
    let Some(kind) = K::from_code(code) else {
        return Err(BytesFault::UnknownKind { offset });
    };
    whole_record(bytes, offset, kind, kind.body())
}

// Nothing stands from `offset` on.
pub fn ends_at(bytes: &[u8], offset: usize) -> Result<(), BytesFault>
    ensures { Ended bytes.now offset result }
{
    if offset < bytes.len() {
        return Err(BytesFault::AfterEnd { offset });
    }
    Ok(())
}
