// Why a data file is not read.

ghost use Rattle.pm_filing.specs.declared.fail.FileFail.TheVariants.{Memory};
ghost use Rattle.std.specs.Prelude.{◌≡◌};

use pm_json::ValueFail;
use std::alloc::{AllocError, AllocFailed};
use thiserror::Error;

/// Why a data file is not read.
#[derive(Debug, Drop, Error)]
pub enum FileFail {
    /// It has more than `MOST_FILE_BYTES` bytes.
    #[error("limit")]
    Limit,
    /// It is no JSON.
    #[error("no JSON")]
    NotJson,
    /// It is no object, or has no text `_type`.
    #[error("no type")]
    NoType,
    /// Its type is not known.
    #[error("unknown type")]
    UnknownType,
    /// The value of a key has a fault.
    #[error("bad property")]
    BadProperty {
        /// The key.
        name: String,
        /// The first fault in reading order.
        why: ValueFail,
    },
    /// The columns of a value differ from those before, or a row of it can be no row of its property.
    #[error("bad row")]
    BadRow {
        /// The key.
        name: String,
    },
    /// A key of the profile is not right.
    #[error("bad profile")]
    BadProfile {
        /// The key.
        key: String,
    },
    /// There is not enough memory.
    #[error("out of memory")]
    Memory,
}

impl From<AllocError> for FileFail {
    ghost from_gives = { λ _ e. e ≡ Memory };

    fn from(_e: AllocError) -> FileFail {
        FileFail::Memory
    }
}

impl<T: Drop> From<AllocFailed<T>> for FileFail {
    ghost from_gives = { λ _ e. e ≡ Memory };

    fn from(_e: AllocFailed<T>) -> FileFail {
        FileFail::Memory
    }
}
