//! Why a parser stops.

ghost use Rattle.std.specs.Prelude.{◌≡◌};
ghost use Rattle.rx_parse_grammar.specs.declared.stop.Stop.TheVariants.{OutOfMemory};

use std::alloc::AllocError;

/// Why a parser stops. The number: how many tokens are left, the one in question included.
#[derive(Drop)]
pub enum Stop {
    OutOfMemory,
    /// No program goes on with this token.
    Syntax(usize),
    /// With this token no program of few enough levels begins.
    TooDeep(usize),
}

impl From<AllocError> for Stop {
    ghost from_gives = { λ _ e. e ≡ OutOfMemory };

    fn from(_error: AllocError) -> Stop {
        Stop::OutOfMemory
    }
}
