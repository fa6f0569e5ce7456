// The moves of a bench table.
ghost use Rattle.std.specs.Prelude.{◌≡◌, ◌^◌};
ghost use Rattle.bench.specs.Entries.{move_fits};
ghost use Rattle.bench.specs.Table.{leaves, goes};

use plant::{Entry, Sizes};

// From state `from`, by `setting`, the machine may move to state `to`.
#[derive(Clone, Copy, PartialEq, Eq, Debug)]
pub struct Move {
    pub from: u32,
    pub setting: u32,
    pub to: u32,
}

impl Entry for Move {
    ghost within = { λ b n. move_fits (2 ^ b) (2 ^ n) };

    fn fits(&self, sizes: Sizes) -> bool {
        self.from < sizes.states() && self.setting < sizes.settings() && self.to < sizes.states()
    }
}

impl Move {
    // Whether the move goes from this state by this setting.
    pub(crate) fn leaves(&self, state: u32, setting: u32) -> bool
        ensures { result ≡ leaves state setting self.now }
    {
        self.from == state && self.setting == setting
    }

    // Whether the move goes from this state by this setting to that state.
    pub(crate) fn goes(&self, state: u32, setting: u32, next: u32) -> bool
        ensures { result ≡ goes state setting next self.now }
    {
        self.leaves(state, setting) && self.to == next
    }
}
