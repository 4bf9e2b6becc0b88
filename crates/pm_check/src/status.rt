// How a run of the program ended.

ghost use Rattle.std.specs.Prelude.{◌≡◌};
ghost use Rattle.pm_check.specs.Ends.{number_of, status_of};
ghost use Rattle.pm_check.specs.declared.status.NoAnswer.TheVariants.{Memory};

use std::alloc::AllocError;

/// How a run of the program ended.
#[derive(Clone, Copy, PartialEq, Eq)]
pub enum Status {
    /// The answer is a yes.
    Right,
    /// The answer is a no.
    Wrong,
    /// The words are none of the program, or ask no question.
    BadWords,
    /// The source failed, or has more than the most bytes of a printed text.
    SourceFault,
    /// The sink failed.
    SinkFault,
    /// Memory ran out.
    OutOfMemory,
    /// The book that is asked for is absent, cannot be had, or is refused.
    BadBook,
}

impl Status {
    /// The status as a program's exit status.
    pub fn number(self) -> u8
        ensures { result ≡ number_of self }
    {
        match self {
            Status::Right => 0,
            Status::Wrong => 1,
            Status::BadWords => 2,
            Status::SourceFault => 3,
            Status::SinkFault => 4,
            Status::OutOfMemory => 5,
            Status::BadBook => 7,
        }
    }
}

/// Why there is no answer.
#[derive(Clone, Copy, PartialEq, Eq)]
pub enum NoAnswer {
    /// The words are none of the program, or ask no question.
    BadWords,
    /// The source failed, or is too long.
    SourceFault,
    /// Memory ran out.
    Memory,
    /// The book that is asked for is absent, cannot be had, or is refused.
    BadBook,
}

impl From<AllocError> for NoAnswer {
    ghost from_gives = { λ _ e. e ≡ Memory };

    fn from(_e: AllocError) -> NoAnswer {
        NoAnswer::Memory
    }
}

impl NoAnswer {
    /// The status of a run without an answer.
    pub fn status(self) -> Status
        ensures { result ≡ status_of self }
    {
        match self {
            NoAnswer::BadWords => Status::BadWords,
            NoAnswer::SourceFault => Status::SourceFault,
            NoAnswer::Memory => Status::OutOfMemory,
            NoAnswer::BadBook => Status::BadBook,
        }
    }
}
