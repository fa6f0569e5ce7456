// Why the run of a log file stops.
ghost use Rattle.std.specs.Prelude.{◌≡◌, Some};
ghost use Rattle.log_file.specs.Faults.{log_file_refusal};
ghost use Rattle.log_file.specs.Shown.{fault_words};
ghost use Rattle.log_file.specs.declared.fault.LogFileFault.TheVariants.{Bytes};

use reader::LogFault;
use records::BytesFault;
use refusal::Refusal;
use std::fmt;

#[derive(Clone, Copy, PartialEq, Eq, Debug)]
pub enum LogFileFault {
    // 1, 2 or 7, the offset, layer bytes: what is wrong with the bytes, whole.
    Bytes(BytesFault),
    // The call whose record is at the offset is turned away: the reader's fault, whole.
    Refused { offset: usize, fault: LogFault },
}

impl LogFileFault {
    // The fault's number, place and layer: those of the fault inside.
    // No `From`: want of memory has no refusal, and one spelling serves every fault.
    pub fn refusal(&self) -> Refusal
        ensures { result ≡ log_file_refusal self.now }
    {
        match self {
            LogFileFault::Bytes(fault) => fault.refusal(),
            LogFileFault::Refused { offset: _, fault } => fault.refusal(),
        }
    }
}

impl fmt::Display for LogFileFault {
    ghost output = { λ x. Some (fault_words x) };

    fn fmt<W: fmt::Write>(&self, f: &mut fmt::Formatter<W>) -> fmt::Result {
        let refusal = self.refusal();
        match self {
            LogFileFault::Bytes(_) => write!(f, "{refusal}"),
            LogFileFault::Refused { offset, fault: _ } => write!(f, "at {offset} {refusal}"),
        }
    }
}

// Written by hand: clauses name what `?` makes of a fault, and a derive gives no such fact.
impl From<BytesFault> for LogFileFault {
    ghost from_gives = { λ f r. r ≡ Bytes f };

    fn from(bytes: BytesFault) -> LogFileFault {
        LogFileFault::Bytes(bytes)
    }
}
