// Why a linear program has no answer.

ghost use Rattle.std.specs.Prelude.{◌≡◌};

use pm_geom::Evidence;
use std::alloc::{AllocError, AllocFailed};

/// Why a linear program has no answer: a number left the range, as the evidence shows, or there is no memory.
#[derive(Drop)]
pub enum LpFail {
    Wide(Evidence),
    Memory,
}

impl From<AllocError> for LpFail {
    ghost use Rattle.pm_simplex.specs.declared.fails.LpFail.TheVariants.{Memory};

    ghost from_gives = { λ _ e. e ≡ Memory };

    fn from(_e: AllocError) -> LpFail {
        LpFail::Memory
    }
}

impl<T: Drop> From<AllocFailed<T>> for LpFail {
    ghost use Rattle.pm_simplex.specs.declared.fails.LpFail.TheVariants.{Memory};

    ghost from_gives = { λ _ e. e ≡ Memory };

    fn from(_e: AllocFailed<T>) -> LpFail {
        LpFail::Memory
    }
}
