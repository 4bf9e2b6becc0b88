// Why no refinement is built.

ghost use Rattle.pm_refine.specs.ObjectRefinements.{as_refinement_fail};
ghost use Rattle.std.specs.Prelude.{◌≡◌};

use crate::fails::RefineFail;
use pm_geom::Evidence;
use pm_object::Condition;
use std::alloc::{AllocError, AllocFailed};
use thiserror::Error;

/// Why the common refinement of the fans of two objects is not built.
#[derive(Debug, Drop, Error)]
pub enum RefinementFail {
    /// This is the first condition that does not hold.
    #[error("a condition does not hold")]
    NotFit(Condition),
    /// The cone of the first fan at place `a` and that of the second fan at place `b` have evidence that a number
    /// leaves the range (E1, E2, E4) or that some cone on the way has more than `MOST_ROWS` extreme rays (E5).
    #[error("an intersection was not made")]
    NotMade { a: u32, b: u32, evidence: Evidence },
    /// No memory was left.
    #[error("out of memory")]
    Memory,
}

impl From<AllocError> for RefinementFail {
    ghost use Rattle.pm_refine.specs.declared.object_fails.RefinementFail.TheVariants.{Memory as RefinementMemory};

    ghost from_gives = { λ _ e. e ≡ RefinementMemory };

    fn from(_e: AllocError) -> RefinementFail {
        RefinementFail::Memory
    }
}

impl<T: Drop> From<AllocFailed<T>> for RefinementFail {
    ghost use Rattle.pm_refine.specs.declared.object_fails.RefinementFail.TheVariants.{Memory as RefinementMemory};

    ghost from_gives = { λ _ e. e ≡ RefinementMemory };

    fn from(_e: AllocFailed<T>) -> RefinementFail {
        RefinementFail::Memory
    }
}

/// The refusal of the two fans, as one of the objects.
pub(crate) fn as_refinement_fail(fail: RefineFail) -> RefinementFail
    ensures { result ≡ as_refinement_fail fail }
{
    match fail {
        RefineFail::NotMade {
            first,
            second,
            evidence,
        } => RefinementFail::NotMade {
            a: first,
            b: second,
            evidence,
        },
        RefineFail::Memory => RefinementFail::Memory,
    }
}
