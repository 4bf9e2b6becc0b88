// Why a JSON value is no value of a property.

ghost use Rattle.pm_json.specs.declared.fail.ValueFail.TheVariants.{Memory};
ghost use Rattle.std.specs.Prelude.{◌≡◌};

use std::alloc::{AllocError, AllocFailed};
use thiserror::Error;

/// Why a JSON value is no value of a property.
#[derive(Clone, Copy, Debug, PartialEq, Eq, Error)]
pub enum ValueFail {
    /// A JSON value has another form, rows have different lengths, or an index stands twice in a set.
    #[error("shape")]
    Shape,
    /// A number is not allowed.
    #[error("number")]
    Number,
    /// An index is negative, or not below the column count.
    #[error("index")]
    Index,
    /// A count is beyond its limit.
    #[error("limit")]
    Limit,
    /// There is not enough memory.
    #[error("out of memory")]
    Memory,
}

impl From<AllocError> for ValueFail {
    ghost from_gives = { λ _ e. e ≡ Memory };

    fn from(_e: AllocError) -> ValueFail {
        ValueFail::Memory
    }
}

impl<T: Drop> From<AllocFailed<T>> for ValueFail {
    ghost from_gives = { λ _ e. e ≡ Memory };

    fn from(_e: AllocFailed<T>) -> ValueFail {
        ValueFail::Memory
    }
}
