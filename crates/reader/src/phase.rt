// Where a session stands.
ghost use Rattle.std.specs.Prelude.{◌≡◌, Some};
ghost use Rattle.reader.specs.Shown.{phase_words, phase_place};

use std::fmt;

#[derive(Clone, Copy, PartialEq, Eq, Debug)]
pub enum Phase {
    // No session is open.
    Closed,
    // The machine is in this state, and a setting is due.
    Poised { state: u32 },
    // This setting was made in this state, and a sighting is due.
    Driven { state: u32, setting: u32 },
}

impl Phase {
    // The phase as a place in a refusal: 0 closed, 1 poised, 2 driven.
    // A number, since users see the place and look it up.
    pub fn place(&self) -> usize
        ensures { result ≡ phase_place self.now }
    {
        match self {
            Phase::Closed => 0,
            Phase::Poised { .. } => 1,
            Phase::Driven { .. } => 2,
        }
    }
}

impl fmt::Display for Phase {
    ghost output = { λ p. Some (phase_words p) };

    fn fmt<W: fmt::Write>(&self, f: &mut fmt::Formatter<W>) -> fmt::Result {
        match self {
            Phase::Closed => write!(f, "closed"),
            Phase::Poised { state } => write!(f, "poised {state}"),
            Phase::Driven { state, setting } => write!(f, "driven {state} {setting}"),
        }
    }
}
