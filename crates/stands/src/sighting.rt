// The stand that waits for a sighting.
ghost use Rattle.std.specs.Prelude.{◌≡◌, List};
ghost use Rattle.reader.specs.declared.call.Call.TheVariants.{See};
ghost use Rattle.reader.specs.declared.phase.Phase.TheVariants.{Driven};
ghost use Rattle.rules.specs.declared.Rule.{Rule as DriveRule};
ghost use Rattle.stands.specs.Moves.{seen_stand};
ghost use Rattle.stands.specs.Sessions.{for_setting, for_sighting, AsRead};

use crate::either::{AwaitsSetting, AwaitsSighting, NotTaken, Stand};
use plant::Plant;
use reader::{Phase, seen};

impl AwaitsSighting {
    // The machine is seen: taken when `next` follows the state under the setting.
    pub fn see<P: Plant>(
        self,
        plant: &P,
        next: u32,
    ) -> Result<AwaitsSetting, NotTaken<AwaitsSighting>>
        ensures value { result ≡ seen_stand (P.meaning plant.now) self next }
        ensures as_read { (rs : List DriveRule) → AsRead for_sighting for_setting (P.meaning plant.now) rs (Driven self.state self.setting) (See next) result }
    {
        match seen(plant, self.state, self.setting, next) {
            Ok(_) => {
                // Taken apart, as a setting's stand is.
                let AwaitsSighting {
                    state: _,
                    setting: _,
                } = self;
                Ok(AwaitsSetting { state: next })
            }
            Err(fault) => Err(NotTaken { stand: self, fault }),
        }
    }
}

impl Stand for AwaitsSighting {
    ghost stands_at = { λ x. Driven x.state x.setting };

    fn phase(&self) -> Phase {
        let state = self.state;
        let setting = self.setting;
        Phase::Driven { state, setting }
    }

    fn close(self) -> Phase {
        let AwaitsSighting {
            state: _,
            setting: _,
        } = self;
        Phase::Closed
    }
}
