// The two stands of a session. Neither can be copied or let go: each call uses its stand up and gives the next one, or the same one back.
// Two structs that move and no enum: a call out of turn must not compile, by a rule of the project.
ghost use Rattle.std.specs.Prelude.{◌≡◌};
ghost use Rattle.reader.specs.declared.phase.Phase.{Phase as SessionPhase};
ghost use Rattle.reader.specs.declared.phase.Phase.TheVariants.{Closed};

use reader::{LogFault, Phase};

// A stand: it tells where the session stands, and it can end the session.
pub trait Stand {
    ghost stands_at: { Self → SessionPhase };

    // Where the session stands.
    fn phase(&self) -> Phase
        ensures { result ≡ stands_at self.now };

    // The session ends.
    fn close(self) -> Phase
        ensures { result ≡ Closed };
}

// The machine is in this state, and a setting is due.
pub struct AwaitsSetting {
    pub(crate) state: u32,
}

// This setting was made in this state, and a sighting is due.
pub struct AwaitsSighting {
    pub(crate) state: u32,
    pub(crate) setting: u32,
}

// A call that was not taken: the stand that it was made on, and why.
pub struct NotTaken<S> {
    pub stand: S,
    pub fault: LogFault,
}
