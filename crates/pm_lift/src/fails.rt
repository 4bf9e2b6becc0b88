// Why there is no answer.

ghost use Rattle.std.specs.Prelude.{◌≡◌};

use pm_dd::DdFail;
use pm_geom::Evidence;
use std::alloc::{AllocError, AllocFailed};
use thiserror::Error;

/// Why no cells were given.
#[derive(Debug, Drop, Error)]
pub enum LiftFail {
    /// A number leaves the range: in the product of two rows (E4), in a step of an elimination (E1), or of double
    /// description (E2).
    #[error("a number leaves the range")]
    Wide(Evidence),
    /// Some cone on the way has more than `MOST_ROWS` extreme rays (E5).
    #[error("too many extreme rays")]
    Many(Evidence),
    #[error("out of memory")]
    Memory,
}

impl From<DdFail> for LiftFail {
    ghost use Rattle.pm_lift.specs.Fails.{lift_fail_of};

    ghost from_gives = { λ f l. l ≡ lift_fail_of f };

    fn from(f: DdFail) -> LiftFail {
        match f {
            DdFail::Wide(e) => LiftFail::Wide(e),
            DdFail::Many(e) => LiftFail::Many(e),
            DdFail::Memory => LiftFail::Memory,
        }
    }
}

impl From<AllocError> for LiftFail {
    ghost use Rattle.pm_lift.specs.declared.fails.LiftFail.TheVariants.{Memory as LiftMemory};

    ghost from_gives = { λ _ e. e ≡ LiftMemory };

    fn from(_e: AllocError) -> LiftFail {
        LiftFail::Memory
    }
}

impl<T: Drop> From<AllocFailed<T>> for LiftFail {
    ghost use Rattle.pm_lift.specs.declared.fails.LiftFail.TheVariants.{Memory as LiftMemory};

    ghost from_gives = { λ _ e. e ≡ LiftMemory };

    fn from(_e: AllocFailed<T>) -> LiftFail {
        LiftFail::Memory
    }
}
