// Running a log file on a reader.
ghost use Rattle.std.specs.Prelude.{◌≡◌};
ghost use Rattle.reader.specs.Step.{answer, after};
ghost use Rattle.log_file.specs.Outcome.{Ran};
ghost use Rattle.log_file.specs.Running.{call_made};

use crate::entry::entry_at;
use crate::fault::LogFileFault;
use plant::Plant;
use reader::{Call, Reader};
use rules::RuledPlant;

// Makes one call, whose record is at `offset`.
fn make_call<P: Plant>(
    reader: &mut Reader,
    ruled: &RuledPlant<'_, P>,
    call: Call,
    offset: usize,
) -> Result<(), LogFileFault>
    ensures answers { result ≡ call_made offset (answer (P.meaning ruled.now.plant.now) ruled.now.rules.now reader.old.phase call) }
    ensures moves { reader.new.phase ≡ after (P.meaning ruled.now.plant.now) ruled.now.rules.now reader.old.phase call }
{
    reader
        .make(ruled, call)
        .map_err(|fault| LogFileFault::Refused { offset, fault })
}

// Runs a log file on the reader, record by record, up to the first call that is turned away or the first fault
// of the bytes. The number of calls taken; the reader stays after the last of them.
pub fn run_log<P: Plant>(
    reader: &mut Reader,
    ruled: &RuledPlant<'_, P>,
    bytes: &[u8],
) -> Result<usize, LogFileFault>
    ensures { Ran (P.meaning ruled.now.plant.now) ruled.now.rules.now reader.old.phase reader.new.phase bytes.now result }
{
    let mut at = 0;
    let mut taken = 0;
    // A cursor and no iterator: only a record says where the next begins, so an iterator would hold this cursor itself.
    while let Some(made) = entry_at(bytes, at)? {
        make_call(reader, ruled, made.call, at)?;
        taken += 1;
        at = made.end;
    }
    Ok(taken)
}
