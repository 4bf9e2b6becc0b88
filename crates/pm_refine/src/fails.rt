// Why there is no answer.

ghost use Rattle.pm_refine.specs.Fails.{not_made_of, turned};
ghost use Rattle.std.specs.Prelude.{◌≡◌};

use pm_dd::DdFail;
use pm_geom::Evidence;
use std::alloc::{AllocError, AllocFailed};
use thiserror::Error;

/// Why no common refinement was given.
#[derive(Debug, Drop, Error)]
pub enum RefineFail {
    /// The cone of the first fan at place `first` and that of the second fan at place `second` have evidence that a
    /// number leaves the range (E1, E2, E4) or that some cone on the way has more than `MOST_ROWS` extreme rays (E5).
    #[error("an intersection was not made")]
    NotMade {
        first: u32,
        second: u32,
        evidence: Evidence,
    },
    #[error("out of memory")]
    Memory,
}

impl From<AllocError> for RefineFail {
    ghost use Rattle.pm_refine.specs.declared.fails.RefineFail.TheVariants.{Memory as RefineMemory};

    ghost from_gives = { λ _ e. e ≡ RefineMemory };

    fn from(_e: AllocError) -> RefineFail {
        RefineFail::Memory
    }
}

impl<T: Drop> From<AllocFailed<T>> for RefineFail {
    ghost use Rattle.pm_refine.specs.declared.fails.RefineFail.TheVariants.{Memory as RefineMemory};

    ghost from_gives = { λ _ e. e ≡ RefineMemory };

    fn from(_e: AllocFailed<T>) -> RefineFail {
        RefineFail::Memory
    }
}

/// A refusal of double description at a pair of places.
pub(crate) fn not_made(first: u32, second: u32, fail: DdFail) -> RefineFail
    ensures { result ≡ not_made_of first second fail }
{
    match fail {
        DdFail::Wide(evidence) => RefineFail::NotMade {
            first,
            second,
            evidence,
        },
        DdFail::Many(evidence) => RefineFail::NotMade {
            first,
            second,
            evidence,
        },
        DdFail::Memory => RefineFail::Memory,
    }
}

/// The refusal with the two places exchanged.
pub(crate) fn with_places_turned(fail: RefineFail) -> RefineFail
    ensures { result ≡ turned fail }
{
    match fail {
        RefineFail::NotMade {
            first,
            second,
            evidence,
        } => RefineFail::NotMade {
            first: second,
            second: first,
            evidence,
        },
        RefineFail::Memory => RefineFail::Memory,
    }
}
