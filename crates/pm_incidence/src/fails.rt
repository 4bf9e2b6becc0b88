// Why there is no answer.

ghost use Rattle.std.specs.Prelude.{◌≡◌};

use pm_elim::ElimFail;
use pm_geom::Evidence;
use std::alloc::{AllocError, AllocFailed};
use thiserror::Error;

/// Why no sets were given.
#[derive(Debug, Drop, Error)]
pub enum IncFail {
    /// The product of two rows leaves the range.
    #[error("a product leaves the range")]
    Wide(Evidence),
    #[error("out of memory")]
    Memory,
}

impl From<AllocError> for IncFail {
    ghost use Rattle.pm_incidence.specs.declared.fails.IncFail.TheVariants.{Memory};

    ghost from_gives = { λ _ e. e ≡ Memory };

    fn from(_e: AllocError) -> IncFail {
        IncFail::Memory
    }
}

impl<T: Drop> From<AllocFailed<T>> for IncFail {
    ghost use Rattle.pm_incidence.specs.declared.fails.IncFail.TheVariants.{Memory};

    ghost from_gives = { λ _ e. e ≡ Memory };

    fn from(_e: AllocFailed<T>) -> IncFail {
        IncFail::Memory
    }
}

/// Why rows were not thinned, or not found from sets.
#[derive(Debug, Drop, Error)]
pub enum ThinFail {
    /// A number leaves the range: in a step of an elimination (E1), in a pivot of a linear program (E3), or in the
    /// product of two rows (E4).
    #[error("a number leaves the range")]
    Wide(Evidence),
    /// There are more than `MOST_ROWS` facet rows (E5).
    #[error("too many facet rows")]
    Many(Evidence),
    #[error("out of memory")]
    Memory,
}

impl From<ElimFail> for ThinFail {
    ghost use Rattle.pm_incidence.specs.Fails.{thin_fail_of};

    ghost from_gives = { λ f t. t ≡ thin_fail_of f };

    fn from(f: ElimFail) -> ThinFail {
        match f {
            ElimFail::Wide(step) => ThinFail::Wide(Evidence::E1(step)),
            ElimFail::Memory => ThinFail::Memory,
        }
    }
}

impl From<AllocError> for ThinFail {
    ghost use Rattle.pm_incidence.specs.declared.fails.ThinFail.TheVariants.{Memory as ThinMemory};

    ghost from_gives = { λ _ e. e ≡ ThinMemory };

    fn from(_e: AllocError) -> ThinFail {
        ThinFail::Memory
    }
}

impl<T: Drop> From<AllocFailed<T>> for ThinFail {
    ghost use Rattle.pm_incidence.specs.declared.fails.ThinFail.TheVariants.{Memory as ThinMemory};

    ghost from_gives = { λ _ e. e ≡ ThinMemory };

    fn from(_e: AllocFailed<T>) -> ThinFail {
        ThinFail::Memory
    }
}
