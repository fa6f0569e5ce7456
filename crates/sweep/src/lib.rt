// The sweep: the greatest lasting set of a plant's states.
#![tactic(auto)]

ghost use Rattle.std.specs.Prelude.{◌≡◌, ℕ, ◌<◌, true, false, length, not, ◌||◌, Decides};
ghost use Rattle.plant.specs.Bounded.{all_below};
ghost use Rattle.plant.specs.Meaning.{states};
ghost use Rattle.plant.specs.Lasting.{Stays};
ghost use Rattle.sweep.specs.Greatest.{held_in};
ghost use Rattle.plant.specs.Staying.{stays, can_stay};
ghost use Rattle.sweep.specs.Sweep.{Swept};
ghost use Rattle.sweep.specs.Outcome.{Flagged};

use plant::{Plant, WrongLength};

// A plant, and a flag for each of its states.
#[derive(Drop)]
pub struct FlaggedPlant<'a, P> {
    pub plant: &'a P,
    pub held: &'a [bool],
}

impl<P: Plant> FlaggedPlant<'_, P> {
    // Whether the flag of `state` is up; a state without a flag counts as down.
    fn is_up(&self, state: u32) -> bool
        ensures { result ≡ held_in self.now.held.now state }
    {
        self.held.get(state as usize).copied().unwrap_or(false)
    }

    // Whether `next` can not follow `state` under `setting`, or has its flag up.
    // The plant is asked only where the flag is down.
    fn is_kept(&self, state: u32, setting: u32, next: u32) -> bool
        ensures { result ≡ (not ((P.meaning self.now.plant.now).follows state setting next) || held_in self.now.held.now next) }
    {
        self.is_up(next) || !self.plant.follows(state, setting, next)
    }

    // Whether `setting` leads from `state` only to states whose flag is up.
    fn leads_back(&self, state: u32, setting: u32) -> bool
        ensures { result ≡ all_below (λ t. not ((P.meaning self.now.plant.now).follows state setting t) || held_in self.now.held.now t) (states (P.meaning self.now.plant.now)) }
    {
        (0..self.plant.states()).all(|next| self.is_kept(state, setting, next))
    }

    // Whether `setting` is safe in `state` and leads only to states whose flag is up.
    pub fn pair_stays(&self, state: u32, setting: u32) -> bool
        ensures value { result ≡ stays (P.meaning self.now.plant.now) (held_in self.now.held.now) state setting }
        ensures in_words { Decides result (Stays (P.meaning self.now.plant.now) (held_in self.now.held.now) state setting) }
    {
        self.plant.is_safe(state, setting) && self.leads_back(state, setting)
    }

    // Whether some setting of `state` is safe and leads only to states whose flag is up.
    fn state_stays(&self, state: u32) -> bool
        ensures { result ≡ can_stay (P.meaning self.now.plant.now) (held_in self.now.held.now) state }
    {
        (0..self.plant.settings()).any(|a| self.pair_stays(state, a))
    }
}

// One sweep: lowers the flag of each state that can not stay among the flagged. Whether a flag fell.
fn sweep<P: Plant>(plant: &P, held: &mut [bool]) -> bool
    requires { length held.old ≡ states (P.meaning plant.now) }
    ensures { Swept (P.meaning plant.now) held.old held.new result }
{
    let mut changed = false;
    // Each turn reads all the flags and may lower one: neither an iterator nor one flagged plant can lend both.
    for s in 0..plant.states() {
        if held[s as usize] && !(FlaggedPlant { plant, held }).state_stays(s) {
            held[s as usize] = false;
            changed = true;
        }
    }
    changed
}

// Flags the states that last: those in which the machine can be kept safe for ever.
pub fn lasting_states<P: Plant>(plant: &P, held: &mut [bool]) -> Result<(), WrongLength>
    ensures { Flagged (P.meaning plant.now) held.old held.new result }
{
    let needed = plant.states() as usize;
    if held.len() != needed {
        return Err(WrongLength { needed });
    }
    held.fill(true);
    while sweep(plant, held) {}
    Ok(())
}
