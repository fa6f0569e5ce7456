// The calls of a session.
ghost use Rattle.std.specs.Prelude.{Some};
ghost use Rattle.reader.specs.Shown.{call_words};

use std::fmt;

#[derive(Clone, Copy, PartialEq, Eq, Debug)]
pub enum Call {
    // A session begins in this state.
    Begin { state: u32 },
    // This setting is made.
    Set { setting: u32 },
    // The machine is seen in this state.
    See { state: u32 },
    // The session ends.
    Close,
}

impl fmt::Display for Call {
    ghost output = { λ c. Some (call_words c) };

    fn fmt<W: fmt::Write>(&self, f: &mut fmt::Formatter<W>) -> fmt::Result {
        match self {
            Call::Begin { state } => write!(f, "begin {state}"),
            Call::Set { setting } => write!(f, "set {setting}"),
            Call::See { state } => write!(f, "see {state}"),
            Call::Close => write!(f, "close"),
        }
    }
}
