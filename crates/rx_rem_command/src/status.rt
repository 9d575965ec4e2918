//! How the program ends.

ghost use Rattle.std.specs.Prelude.{◌≡◌};
ghost use Rattle.rx_rem_command.specs.Lines.{code_of, status_line};

/// What came of the words. Its number is the program's exit code.
#[derive(Clone, Copy, Debug, PartialEq, Eq)]
pub enum Status {
    Done,
    Refused,
    Usage,
    NotAccepted,
    ReadFault,
    WriteFault,
    OutOfMemory,
    TooLong,
    StillRunning,
    Wrong,
    Trapped,
}

impl Status {
    /// The exit code: 0 to 9 in this order, and 101 for `Trapped`.
    pub fn code(&self) -> u8
        ensures { result ≡ code_of self.now }
    {
        match self {
            Status::Done => 0,
            Status::Refused => 1,
            Status::Usage => 2,
            Status::NotAccepted => 3,
            Status::ReadFault => 4,
            Status::WriteFault => 5,
            Status::OutOfMemory => 6,
            Status::TooLong => 7,
            Status::StillRunning => 8,
            Status::Wrong => 9,
            Status::Trapped => 101,
        }
    }

    /// The line that says this status by its name alone.
    pub fn line(&self) -> &'static str
        ensures { result.now ≡ status_line self.now }
    {
        match self {
            Status::Done => "error: Done\n",
            Status::Refused => "error: Refused\n",
            Status::Usage => "error: Usage\n",
            Status::NotAccepted => "error: NotAccepted\n",
            Status::ReadFault => "error: ReadFault\n",
            Status::WriteFault => "error: WriteFault\n",
            Status::OutOfMemory => "error: OutOfMemory\n",
            Status::TooLong => "error: TooLong\n",
            Status::StillRunning => "error: StillRunning\n",
            Status::Wrong => "error: Wrong\n",
            Status::Trapped => "error: Trapped\n",
        }
    }
}
