// The kinds of record of a log file.
ghost use Rattle.log_file.specs.Encoding.{log_kinds};
ghost use Rattle.log_file.specs.Kinds.{code_of};

use records::FileKind;

#[derive(Clone, Copy, PartialEq, Eq, Debug)]
pub(crate) enum LogFileKind {
    // A begin, a set and a see: the state or the setting.
    Begin = 0x31,
    Set = 0x32,
    See = 0x33,
    // A close, and the end of the log: no body.
    Close = 0x34,
    End = 0x3F,
}

impl FileKind for LogFileKind {
    ghost kinds = { log_kinds };

    ghost code = { code_of };

    fn from_code(byte: u8) -> Option<Self> {
        match byte {
            0x31 => Some(LogFileKind::Begin),
            0x32 => Some(LogFileKind::Set),
            0x33 => Some(LogFileKind::See),
            0x34 => Some(LogFileKind::Close),
            0x3F => Some(LogFileKind::End),
            _ => None,
        }
    }

    fn body(self) -> usize {
        match self {
            LogFileKind::Begin | LogFileKind::Set | LogFileKind::See => 1,
            LogFileKind::Close | LogFileKind::End => 0,
        }
    }
}
