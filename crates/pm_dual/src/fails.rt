// How a search ends that finds no answer.

use std::alloc::{AllocError, AllocFailed};

/// Why a search finds nothing.
#[derive(Clone, Copy)]
pub(crate) enum SearchFail {
    /// A number is not small, or a step is not exact.
    Lost,
    /// No memory was left.
    Memory,
}

impl From<AllocError> for SearchFail {
    fn from(_e: AllocError) -> SearchFail {
        SearchFail::Memory
    }
}

impl<T: Drop> From<AllocFailed<T>> for SearchFail {
    fn from(_e: AllocFailed<T>) -> SearchFail {
        SearchFail::Memory
    }
}
