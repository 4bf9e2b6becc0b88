// How a run of the program ended.

ghost use Rattle.pm_run.specs.Ends.{fail_of, number_of, status_of};
ghost use Rattle.pm_run.specs.declared.status.RunFail.TheVariants.{Memory, SinkFault};
ghost use Rattle.std.specs.Prelude.{◌≡◌};

use pm_lines::LinesFail;
use pm_store::Failed;
use std::alloc::AllocError;

/// How a run of the program ended.
#[derive(Clone, Copy, PartialEq, Eq)]
pub enum Status {
    /// The script was read to its end, and no reply was a refusal.
    Answered,
    /// The same, and some reply was a refusal.
    SomeRefused,
    /// The words are not those of the program.
    BadWords,
    /// The source failed. The whole lines that it gave before are answered.
    SourceFault,
    /// The sink failed.
    SinkFault,
    /// Memory ran out.
    OutOfMemory,
    /// The script has more than `MOST_SCRIPT_BYTES` bytes. The whole lines of these are answered.
    TooLong,
    /// The named book is absent, cannot be had, is longer than `MOST_FILE_BYTES` bytes or no UTF-8, or is refused.
    BadBook,
}

impl Status {
    /// The status as a program's exit status.
    pub fn number(self) -> u8
        ensures { result ≡ number_of self }
    {
        match self {
            Status::Answered => 0,
            Status::SomeRefused => 1,
            Status::BadWords => 2,
            Status::SourceFault => 3,
            Status::SinkFault => 4,
            Status::OutOfMemory => 5,
            Status::TooLong => 6,
            Status::BadBook => 7,
        }
    }
}

/// Why not all lines of a script were answered.
#[derive(Clone, Copy)]
pub(crate) enum RunFail {
    SourceFault,
    SinkFault,
    Memory,
    TooLong,
}

impl From<AllocError> for RunFail {
    ghost from_gives = { λ _ e. e ≡ Memory };

    fn from(_e: AllocError) -> RunFail {
        RunFail::Memory
    }
}

impl From<Failed> for RunFail {
    ghost from_gives = { λ _ e. e ≡ SinkFault };

    fn from(_e: Failed) -> RunFail {
        RunFail::SinkFault
    }
}

impl From<LinesFail> for RunFail {
    ghost from_gives = { λ why e. e ≡ fail_of why };

    fn from(why: LinesFail) -> RunFail {
        match why {
            LinesFail::Fault => RunFail::SourceFault,
            LinesFail::TooLong => RunFail::TooLong,
            LinesFail::Memory => RunFail::Memory,
        }
    }
}

/// The status of a run over the lines of a script.
pub(crate) fn ended(outcome: Result<bool, RunFail>) -> Status
    ensures { result ≡ status_of outcome }
{
    match outcome {
        Ok(false) => Status::Answered,
        Ok(true) => Status::SomeRefused,
        Err(RunFail::SourceFault) => Status::SourceFault,
        Err(RunFail::SinkFault) => Status::SinkFault,
        Err(RunFail::Memory) => Status::OutOfMemory,
        Err(RunFail::TooLong) => Status::TooLong,
    }
}
