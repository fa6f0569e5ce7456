// The stand that waits for a setting.
ghost use Rattle.std.specs.Prelude.{◌≡◌, List};
ghost use Rattle.reader.specs.Strings.{Faithful};
ghost use Rattle.reader.specs.declared.call.Call.TheVariants.{Set};
ghost use Rattle.reader.specs.declared.phase.Phase.TheVariants.{Poised};
ghost use Rattle.rules.specs.declared.Rule.{Rule as DriveRule};
ghost use Rattle.stands.specs.Moves.{first_stand, set_stand};
ghost use Rattle.stands.specs.Sessions.{for_setting, for_sighting, AsRead, Sessions, LawfulSessions};

use crate::either::{AwaitsSetting, AwaitsSighting, NotTaken, Stand};
use plant::Plant;
use reader::{LogFault, Phase, begun, driven};
use rules::RuledPlant;

impl AwaitsSetting {
    // A session begins: taken when `state` is a start.
    pub fn begin<P: Plant>(plant: &P, state: u32) -> Result<AwaitsSetting, LogFault>
        ensures value { result ≡ first_stand (P.meaning plant.now) state }
        ensures sessions { (rs : List DriveRule) → Sessions (P.meaning plant.now) rs }
        ensures lawful { (rs : List DriveRule) → Faithful (P.meaning plant.now) rs → LawfulSessions (P.meaning plant.now) rs }
    {
        begun(plant, state).map(|_| AwaitsSetting { state })
    }

    // The setting is made: taken when it fits here.
    pub fn set<P: Plant>(
        self,
        ruled: &RuledPlant<'_, P>,
        setting: u32,
    ) -> Result<AwaitsSighting, NotTaken<AwaitsSetting>>
        ensures value { result ≡ set_stand (P.meaning ruled.now.plant.now) ruled.now.rules.now self setting }
        ensures as_read { AsRead for_setting for_sighting (P.meaning ruled.now.plant.now) ruled.now.rules.now (Poised self.state) (Set setting) result }
    {
        match driven(ruled, self.state, setting) {
            Ok(_) => {
                // Taken apart: a stand that is not handed on can not be let go, by a rule of the project.
                let AwaitsSetting { state } = self;
                Ok(AwaitsSighting { state, setting })
            }
            Err(fault) => Err(NotTaken { stand: self, fault }),
        }
    }
}

impl Stand for AwaitsSetting {
    ghost stands_at = { λ x. Poised x.state };

    fn phase(&self) -> Phase {
        let state = self.state;
        Phase::Poised { state }
    }

    fn close(self) -> Phase {
        let AwaitsSetting { state: _ } = self;
        Phase::Closed
    }
}
