// Why a round of an elimination is given up.

ghost use Rattle.pm_elim.specs.declared.refusal.Refusal.TheVariants.{Memory};
ghost use Rattle.std.specs.Prelude.{◌≡◌};

use pm_vector::Ints;
use std::alloc::{AllocError, AllocFailed};

/// A step that leaves the range: the row that it was to reduce, the place of the basis row by which, or the number of
/// basis rows where it was the new row, and a column.
#[derive(Drop)]
pub(crate) struct WideStep {
    pub part: Ints,
    pub by: usize,
    pub column: usize,
}

/// Why a round is given up.
#[derive(Drop)]
pub(crate) enum Refusal {
    Wide(WideStep),
    Memory,
}

impl From<AllocError> for Refusal {
    ghost from_gives = { λ _ e. e ≡ Memory };

    fn from(_e: AllocError) -> Refusal {
        Refusal::Memory
    }
}

impl<T: Drop> From<AllocFailed<T>> for Refusal {
    ghost from_gives = { λ _ e. e ≡ Memory };

    fn from(_e: AllocFailed<T>) -> Refusal {
        Refusal::Memory
    }
}
