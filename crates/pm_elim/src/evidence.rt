// Why an elimination is refused.

ghost use Rattle.pm_elim.specs.declared.evidence.ElimFail.TheVariants.{Memory};
ghost use Rattle.std.specs.Prelude.{◌≡◌};

use pm_vector::ElimEvidence;
use std::alloc::{AllocError, AllocFailed};
use thiserror::Error;

/// Why an elimination was given up.
#[derive(Debug, Drop, Error)]
pub enum ElimFail {
    #[error("an elimination step leaves the range")]
    Wide(ElimEvidence),
    #[error("out of memory")]
    Memory,
}

impl From<AllocError> for ElimFail {
    ghost from_gives = { λ _ e. e ≡ Memory };

    fn from(_e: AllocError) -> ElimFail {
        ElimFail::Memory
    }
}

impl<T: Drop> From<AllocFailed<T>> for ElimFail {
    ghost from_gives = { λ _ e. e ≡ Memory };

    fn from(_e: AllocFailed<T>) -> ElimFail {
        ElimFail::Memory
    }
}

/// Why dual rows were not given.
#[derive(Debug, Drop, Error)]
pub enum DualFail {
    #[error("the rows are dependent")]
    Dependent,
    #[error("an elimination step leaves the range")]
    Wide(ElimEvidence),
    #[error("out of memory")]
    Memory,
}

impl From<ElimFail> for DualFail {
    ghost use Rattle.pm_elim.specs.Duals.{dual_fail_of};

    ghost from_gives = { λ f d. d ≡ dual_fail_of f };

    fn from(f: ElimFail) -> DualFail {
        match f {
            ElimFail::Wide(e) => DualFail::Wide(e),
            ElimFail::Memory => DualFail::Memory,
        }
    }
}

impl From<AllocError> for DualFail {
    ghost use Rattle.pm_elim.specs.declared.evidence.DualFail.TheVariants.{Memory as DualMemory};

    ghost from_gives = { λ _ e. e ≡ DualMemory };

    fn from(_e: AllocError) -> DualFail {
        DualFail::Memory
    }
}

impl<T: Drop> From<AllocFailed<T>> for DualFail {
    ghost use Rattle.pm_elim.specs.declared.evidence.DualFail.TheVariants.{Memory as DualMemory};

    ghost from_gives = { λ _ e. e ≡ DualMemory };

    fn from(_e: AllocFailed<T>) -> DualFail {
        DualFail::Memory
    }
}
