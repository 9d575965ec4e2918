//! How a run ends, as a status and the line that says it.

ghost use Rattle.std.specs.Prelude.{◌≡◌};
ghost use Rattle.rx_rem_command.specs.RunLines.{end_status, end_line};

use crate::status::Status;
use rx_meaning::{End, Trap};

/// The status of a run's end.
pub fn status_of_end(end: End) -> Status
    ensures { result ≡ end_status end }
{
    match end {
        End::Ended => Status::Done,
        End::Trapped(_) => Status::Trapped,
        End::Running => Status::StillRunning,
        End::Wrong => Status::Wrong,
    }
}

/// The line that says how a run ended; nothing where `main` has ended.
pub fn line_of_end(end: End) -> &'static str
    ensures { result.now ≡ end_line end }
{
    match end {
        End::Ended => "",
        End::Trapped(Trap::Overflow) => "error: Trapped Overflow\n",
        End::Trapped(Trap::DivideByZero) => "error: Trapped DivideByZero\n",
        End::Running => Status::StillRunning.line(),
        End::Wrong => Status::Wrong.line(),
    }
}
