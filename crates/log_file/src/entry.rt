// What stands at an offset of a log file.
ghost use Rattle.std.specs.Prelude.{◌≡◌};
ghost use Rattle.log_file.specs.Running.{entry_at};
ghost use Rattle.log_file.specs.Outcome.{EntryInWords};

use crate::kind::LogFileKind;
use reader::Call;
use records::{BytesFault, byte_at, ends_at, record_at};

// A call that a record makes; the next record begins at `end`.
#[derive(Clone, Copy, PartialEq, Eq, Debug)]
pub struct Made {
    pub call: Call,
    pub end: usize,
}

// The record at `offset`: a call, the end with nothing after it, or what is wrong with the bytes there.
pub fn entry_at(bytes: &[u8], offset: usize) -> Result<Option<Made>, BytesFault>
    ensures computed { result ≡ entry_at bytes.now offset }
    ensures in_words { EntryInWords bytes.now offset result }
{
    let found = record_at::<LogFileKind>(bytes, offset)?;
    let number = u32::from(byte_at(bytes, offset + 1));
    let call = match found.kind {
        LogFileKind::Begin => Call::Begin { state: number },
        LogFileKind::Set => Call::Set { setting: number },
        LogFileKind::See => Call::See { state: number },
        LogFileKind::Close => Call::Close,
        LogFileKind::End => {
            ends_at(bytes, found.end)?;
            return Ok(None);
        }
    };
    let end = found.end;
    Ok(Some(Made { call, end }))
}
