// Why no sum is built.

use pm_object::Condition;
use pm_vector::Ints;
use std::alloc::{AllocError, AllocFailed};
use thiserror::Error;

/// Why no Minkowski sum is built.
#[derive(Debug, Drop, Error)]
pub enum SumFail {
    /// This is the first condition that does not hold.
    #[error("a condition does not hold")]
    NotFit(Condition),
    /// A number on the way to the sum of these two rows leaves the range, first in this column.
    #[error("the sum of two points is too wide")]
    Wide {
        first: Ints,
        second: Ints,
        column: u32,
    },
    /// No memory was left.
    #[error("out of memory")]
    Memory,
}

impl From<AllocError> for SumFail {
    ghost use Rattle.pm_build.specs.declared.fails.SumFail.TheVariants.{Memory};
    ghost use Rattle.std.specs.Prelude.{◌≡◌};

    ghost from_gives = { λ _ e. e ≡ Memory };

    fn from(_e: AllocError) -> SumFail {
        SumFail::Memory
    }
}

impl<T: Drop> From<AllocFailed<T>> for SumFail {
    ghost use Rattle.pm_build.specs.declared.fails.SumFail.TheVariants.{Memory};
    ghost use Rattle.std.specs.Prelude.{◌≡◌};

    ghost from_gives = { λ _ e. e ≡ Memory };

    fn from(_e: AllocFailed<T>) -> SumFail {
        SumFail::Memory
    }
}
