// Why there is no answer.

ghost use Rattle.pm_dd.specs.declared.fails.CombinationFail.TheVariants.{NoMemory};
ghost use Rattle.pm_dd.specs.declared.fails.StepFail.TheVariants.{Memory};
ghost use Rattle.std.specs.Prelude.{◌≡◌};

use pm_elim::ElimFail;
use pm_geom::Evidence;
use pm_vector::Ints;
use std::alloc::{AllocError, AllocFailed};
use thiserror::Error;

/// Why the extreme rays were not given.
#[derive(Debug, Drop, Error)]
pub enum DdFail {
    /// A number leaves the range: in a step of an elimination, or of double description.
    #[error("a step leaves the range")]
    Wide(Evidence),
    /// Some cone on the way has more than `MOST_ROWS` extreme rays.
    #[error("too many extreme rays")]
    Many(Evidence),
    #[error("out of memory")]
    Memory,
}

impl From<ElimFail> for DdFail {
    ghost use Rattle.pm_dd.specs.Refusals.{fail_of_elimination};

    ghost from_gives = { λ f d. d ≡ fail_of_elimination f };

    fn from(f: ElimFail) -> DdFail {
        match f {
            ElimFail::Wide(e) => DdFail::Wide(Evidence::E1(e)),
            ElimFail::Memory => DdFail::Memory,
        }
    }
}

impl From<AllocError> for DdFail {
    ghost use Rattle.pm_dd.specs.declared.fails.DdFail.TheVariants.{Memory as DdMemory};

    ghost from_gives = { λ _ e. e ≡ DdMemory };

    fn from(_e: AllocError) -> DdFail {
        DdFail::Memory
    }
}

impl<T: Drop> From<AllocFailed<T>> for DdFail {
    ghost use Rattle.pm_dd.specs.declared.fails.DdFail.TheVariants.{Memory as DdMemory};

    ghost from_gives = { λ _ e. e ≡ DdMemory };

    fn from(_e: AllocFailed<T>) -> DdFail {
        DdFail::Memory
    }
}

/// Why a step was given up.
#[derive(Drop)]
pub enum StepFail {
    /// The product of the next row with the ray at this place leaves the range.
    Product(usize),
    /// The combination of two adjacent rays, the next row being positive on the first and negative on the second,
    /// leaves the range in a column.
    Pair {
        first: usize,
        second: usize,
        column: usize,
    },
    /// These are more than `MOST_ROWS` extreme rays of the next cone.
    Many(Vec<Ints>),
    Memory,
}

/// Why a combination was given up: the product with the first or with the second ray leaves the range, or the
/// combination does in a column; or want of memory.
#[derive(Drop)]
pub(crate) enum CombinationFail {
    First,
    Second,
    Column(usize),
    NoMemory,
}

impl From<AllocError> for CombinationFail {
    ghost from_gives = { λ _ e. e ≡ NoMemory };

    fn from(_e: AllocError) -> CombinationFail {
        CombinationFail::NoMemory
    }
}

impl From<AllocError> for StepFail {
    ghost from_gives = { λ _ e. e ≡ Memory };

    fn from(_e: AllocError) -> StepFail {
        StepFail::Memory
    }
}

impl<T: Drop> From<AllocFailed<T>> for StepFail {
    ghost from_gives = { λ _ e. e ≡ Memory };

    fn from(_e: AllocFailed<T>) -> StepFail {
        StepFail::Memory
    }
}
