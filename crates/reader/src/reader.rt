// The reader of a session.
ghost use Rattle.std.specs.Prelude.{◌≡◌, [], ◌∷◌, length};
ghost use Rattle.filling.specs.Adding.{Added, HasRoom};
ghost use Rattle.plant.specs.Meaning.{states, settings};
ghost use Rattle.reader.specs.Step.{answer, after, offered, fits_there};
ghost use Rattle.reader.specs.Outcome.{Ran, Run};
ghost use Rattle.reader.specs.declared.call.Call.TheVariants.{Begin, Set, See, Close};
ghost use Rattle.reader.specs.declared.fault.LogFault.TheVariants.{NoStart, Misfit, NotFollowing};
ghost use Rattle.reader.specs.declared.phase.Phase.TheVariants.{Closed, Poised, Driven};

use crate::call::Call;
use crate::fault::LogFault;
use crate::phase::Phase;
use filling::Filling;
use plant::{Plant, WrongLength};
use rules::RuledPlant;

#[derive(Clone, Copy, PartialEq, Eq, Debug)]
pub struct Reader {
    phase: Phase,
}

// The phase after a number was offered: taken where it is below the size and passes the test, else this is the fault.
fn offered(
    size: u32,
    number: u32,
    passes: bool,
    fault: LogFault,
    next: Phase,
) -> Result<Phase, LogFault>
    ensures { result ≡ offered size number passes fault next }
{
    if number >= size {
        return Err(LogFault::BeyondSizes { number });
    }
    if !passes {
        return Err(fault);
    }
    Ok(next)
}

// The phase after a begin of `state`, where no session is open.
// Here and in the next two, plant and rules are asked only about a number within the sizes: their lists may be long.
pub fn begun<P: Plant>(plant: &P, state: u32) -> Result<Phase, LogFault>
    ensures { result ≡ offered (states (P.meaning plant.now)) state ((P.meaning plant.now).start state) (NoStart state) (Poised state) }
{
    let states = plant.states();
    let starts = state < states && plant.is_start(state);
    let fault = LogFault::NoStart { state };
    let next = Phase::Poised { state };
    offered(states, state, starts, fault, next)
}

// The phase after `setting` was made in `state`.
pub fn driven<P: Plant>(
    ruled: &RuledPlant<'_, P>,
    state: u32,
    setting: u32,
) -> Result<Phase, LogFault>
    ensures { result ≡ offered (settings (P.meaning ruled.now.plant.now)) setting (fits_there (P.meaning ruled.now.plant.now) ruled.now.rules.now state setting) (Misfit setting) (Driven state setting) }
{
    let settings = ruled.plant.settings();
    let fits = setting < settings && ruled.fits(state, setting);
    let fault = LogFault::Misfit { setting };
    let next = Phase::Driven { state, setting };
    offered(settings, setting, fits, fault, next)
}

// The phase after the machine was seen in `next`, driven by `setting` in `state`.
pub fn seen<P: Plant>(plant: &P, state: u32, setting: u32, next: u32) -> Result<Phase, LogFault>
    ensures { result ≡ offered (states (P.meaning plant.now)) next ((P.meaning plant.now).follows state setting next) (NotFollowing next) (Poised next) }
{
    let states = plant.states();
    let follows = next < states && plant.follows(state, setting, next);
    let fault = LogFault::NotFollowing { state: next };
    let poised = Phase::Poised { state: next };
    offered(states, next, follows, fault, poised)
}

// Writes one answer. There is a place for it, so it is not turned away;
// by `?` the caller would hand on a fault that can not come.
fn put(answers: &mut Filling<'_, Result<(), LogFault>>, answer: Result<(), LogFault>)
    requires { HasRoom answers.old 1 }
    ensures { Added answers.old answers.new (answer ∷ []) }
{
    let _ = answers.push(answer);
}

impl Reader {
    // A new reader is closed.
    pub fn new() -> Reader
        ensures { result.phase ≡ Closed }
    {
        let phase = Phase::Closed;
        Reader { phase }
    }

    // Where the session stands.
    pub fn phase(&self) -> Phase
        ensures { result ≡ self.now.phase }
    {
        self.phase
    }

    // One call: what it does depends on the phase and the call together.
    // A `match` on a field and no type for each phase: one reader goes through any string of calls.
    pub fn make<P: Plant>(&mut self, ruled: &RuledPlant<'_, P>, call: Call) -> Result<(), LogFault>
        ensures answers { result ≡ answer (P.meaning ruled.now.plant.now) ruled.now.rules.now self.old.phase call }
        ensures moves { self.new.phase ≡ after (P.meaning ruled.now.plant.now) ruled.now.rules.now self.old.phase call }
    {
        let next = match (self.phase, call) {
            (Phase::Closed, Call::Begin { state }) => begun(ruled.plant, state)?,
            (Phase::Poised { state }, Call::Set { setting }) => { driven(ruled, state, setting)? }
            (Phase::Driven { state, setting }, Call::See { state: next }) => {
                seen(ruled.plant, state, setting, next)?
            }
            (Phase::Poised { .. } | Phase::Driven { .. }, Call::Close) => Phase::Closed,
            (phase, _) => return Err(LogFault::OutOfTurn { phase }),
        };
        *self = Reader { phase: next };
        Ok(())
    }

    // A session begins: taken when closed and `state` is a start.
    // This and the next three stand beside `make`, since `reader.begin(&ruled, 0)` reads plainer than the call as a value.
    pub fn begin<P: Plant>(&mut self, ruled: &RuledPlant<'_, P>, state: u32) -> Result<(), LogFault>
        ensures answers { result ≡ answer (P.meaning ruled.now.plant.now) ruled.now.rules.now self.old.phase (Begin state) }
        ensures moves { self.new.phase ≡ after (P.meaning ruled.now.plant.now) ruled.now.rules.now self.old.phase (Begin state) }
    {
        self.make(ruled, Call::Begin { state })
    }

    // A setting is made: taken when poised and it fits there.
    pub fn set<P: Plant>(&mut self, ruled: &RuledPlant<'_, P>, setting: u32) -> Result<(), LogFault>
        ensures answers { result ≡ answer (P.meaning ruled.now.plant.now) ruled.now.rules.now self.old.phase (Set setting) }
        ensures moves { self.new.phase ≡ after (P.meaning ruled.now.plant.now) ruled.now.rules.now self.old.phase (Set setting) }
    {
        self.make(ruled, Call::Set { setting })
    }

    // The machine is seen: taken when driven and `state` follows the pair.
    pub fn see<P: Plant>(&mut self, ruled: &RuledPlant<'_, P>, state: u32) -> Result<(), LogFault>
        ensures answers { result ≡ answer (P.meaning ruled.now.plant.now) ruled.now.rules.now self.old.phase (See state) }
        ensures moves { self.new.phase ≡ after (P.meaning ruled.now.plant.now) ruled.now.rules.now self.old.phase (See state) }
    {
        self.make(ruled, Call::See { state })
    }

    // The session ends: taken when not closed.
    pub fn close<P: Plant>(&mut self, ruled: &RuledPlant<'_, P>) -> Result<(), LogFault>
        ensures answers { result ≡ answer (P.meaning ruled.now.plant.now) ruled.now.rules.now self.old.phase Close }
        ensures moves { self.new.phase ≡ after (P.meaning ruled.now.plant.now) ruled.now.rules.now self.old.phase Close }
    {
        self.make(ruled, Call::Close)
    }

    // Makes each call in turn, and writes its answer at its place.
    // A function apart: its proof file says what follows in words, and `run` needs none.
    fn answer_all<P: Plant>(
        &mut self,
        ruled: &RuledPlant<'_, P>,
        calls: &[Call],
        answers: &mut [Result<(), LogFault>],
    )
        requires { length calls.now ≡ length answers.old }
        ensures { Ran (P.meaning ruled.now.plant.now) ruled.now.rules.now self.old.phase self.new.phase calls.now answers.new }
    {
        let mut filling = Filling::new(answers);
        for call in calls {
            put(&mut filling, self.make(ruled, *call));
        }
    }

    // Makes each call in turn, those after a refused one too, and writes its answer at its place.
    // Where there is not a place for each answer, no call is made.
    // By a rule of the project all memory is lent: no heap, so no `Vec` of answers.
    pub fn run<P: Plant>(
        &mut self,
        ruled: &RuledPlant<'_, P>,
        calls: &[Call],
        answers: &mut [Result<(), LogFault>],
    ) -> Result<(), WrongLength>
        ensures { Run (P.meaning ruled.now.plant.now) ruled.now.rules.now self.old.phase self.new.phase calls.now answers.old answers.new result }
    {
        if answers.len() != calls.len() {
            let needed = calls.len();
            return Err(WrongLength { needed });
        }
        self.answer_all(ruled, calls, answers);
        Ok(())
    }
}
