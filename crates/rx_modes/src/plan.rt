//! How a new function takes the params of a run: data.

ghost use Rattle.std.specs.Prelude.{◌≡◌};
ghost use Rattle.rx_modes.specs.declared.plan.ModeFault.TheVariants.{OutOfMemory};

use rx_core::{LetGo, List};
use rx_modes_policy::Mode;
use std::alloc::AllocError;

/// How the params of a run are passed, in their order.
#[derive(Drop)]
pub struct ModePlan {
    /// The mode of each.
    pub modes: List<Mode>,
    /// Whether the run moves it, or a part of its own storage.
    pub moved: List<bool>,
    /// Whether it is given away: passed by value, and not copied.
    pub given_away: List<bool>,
}

/// Why a run's params can't be passed, by the number of a variable.
#[derive(Clone, Copy, Debug, PartialEq, Eq)]
pub enum ModeFault {
    /// The first param that no mode is for: it would have to be declared `mut`.
    NotMut { var: u32 },
    /// The first variable that may be changed, of whose own storage there is a reference somewhere in the function, and whose
    /// value is handed in or out, so that it would get another storage.
    Aliased { var: u32 },
    OutOfMemory,
}

impl From<AllocError> for ModeFault {
    ghost from_gives = { λ _ e. e ≡ OutOfMemory };

    fn from(_error: AllocError) -> ModeFault {
        ModeFault::OutOfMemory
    }
}

impl LetGo for ModePlan {
    fn let_go(self) {
        let _gone = self;
    }
}
