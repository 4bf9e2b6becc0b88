// Why a call on a matrix or a row gives nothing.

ghost use Rattle.pm_fraction.specs.declared.fails.MatrixFail.TheVariants.{Memory as MatrixMemory};
ghost use Rattle.pm_fraction.specs.declared.fails.RowFail.TheVariants.{Memory as RowMemory};
ghost use Rattle.pm_fraction.specs.declared.fails.RowsFail.TheVariants.{Memory as RowsMemory};
ghost use Rattle.std.specs.Prelude.{◌≡◌};

use std::alloc::{AllocError, AllocFailed};
use thiserror::Error;

/// Why a row did not become a row of a matrix.
#[derive(Clone, Copy, Debug, PartialEq, Eq, Error)]
pub enum MatrixFail {
    /// The row has more or fewer entries than the matrix has columns.
    #[error("the row has another length than the matrix has columns")]
    Ragged,
    /// No memory was left.
    #[error("out of memory")]
    Memory,
}

/// Why a row of fractions has no primitive whole row within the range.
#[derive(Clone, Copy, Debug, PartialEq, Eq, Error)]
pub enum RowFail {
    /// The least common multiple, or the product, of these two is the first number on the way that is out of the
    /// range.
    #[error("{first} and {second} make a number that is too wide")]
    Wide { first: i128, second: i128 },
    /// No memory was left.
    #[error("out of memory")]
    Memory,
}

/// Why the rows of a matrix have no primitive whole rows within the range.
#[derive(Clone, Copy, Debug, PartialEq, Eq, Error)]
pub enum RowsFail {
    /// In this row the least common multiple, or the product, of these two is the first number out of the range; no
    /// row before it has one.
    #[error("{first} and {second} make a number that is too wide, in row {row}")]
    Wide { row: u32, first: i128, second: i128 },
    /// No memory was left.
    #[error("out of memory")]
    Memory,
}

impl From<AllocError> for MatrixFail {
    ghost from_gives = { λ _ e. e ≡ MatrixMemory };

    fn from(_e: AllocError) -> MatrixFail {
        MatrixFail::Memory
    }
}

impl<T: Drop> From<AllocFailed<T>> for MatrixFail {
    ghost from_gives = { λ _ e. e ≡ MatrixMemory };

    fn from(_e: AllocFailed<T>) -> MatrixFail {
        MatrixFail::Memory
    }
}

impl From<AllocError> for RowFail {
    ghost from_gives = { λ _ e. e ≡ RowMemory };

    fn from(_e: AllocError) -> RowFail {
        RowFail::Memory
    }
}

impl<T: Drop> From<AllocFailed<T>> for RowsFail {
    ghost from_gives = { λ _ e. e ≡ RowsMemory };

    fn from(_e: AllocFailed<T>) -> RowsFail {
        RowsFail::Memory
    }
}
