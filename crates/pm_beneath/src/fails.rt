// Why there is no answer.

use pm_dd::DdFail;
use pm_elim::ElimFail;
use pm_geom::Evidence;
use std::alloc::AllocError;
use thiserror::Error;

/// Why the facets and the placing triangulation of a cone were not given.
#[derive(Debug, Drop, Error)]
pub enum PlaceFail {
    /// A number leaves the range: in a step of an elimination, or of double description.
    #[error("a step leaves the range")]
    Wide(Evidence),
    /// Some cone on the way has more than `MOST_ROWS` facets, or more than `MOST_ROWS` cells.
    #[error("too many facets or cells")]
    Many(Evidence),
    #[error("out of memory")]
    Memory,
}

impl From<DdFail> for PlaceFail {
    ghost use Rattle.pm_beneath.specs.Placed.{fail_of_engine};
    ghost use Rattle.std.specs.Prelude.{◌≡◌};

    ghost from_gives = { λ f e. e ≡ fail_of_engine f };

    fn from(f: DdFail) -> PlaceFail {
        match f {
            DdFail::Wide(e) => PlaceFail::Wide(e),
            DdFail::Many(e) => PlaceFail::Many(e),
            DdFail::Memory => PlaceFail::Memory,
        }
    }
}

impl From<ElimFail> for PlaceFail {
    ghost use Rattle.pm_beneath.specs.Placed.{fail_of_engine};
    ghost use Rattle.pm_dd.specs.Refusals.{fail_of_elimination};
    ghost use Rattle.std.specs.Prelude.{◌≡◌};

    ghost from_gives = { λ f e. e ≡ fail_of_engine (fail_of_elimination f) };

    fn from(f: ElimFail) -> PlaceFail {
        match f {
            ElimFail::Wide(e) => PlaceFail::Wide(Evidence::E1(e)),
            ElimFail::Memory => PlaceFail::Memory,
        }
    }
}

impl From<AllocError> for PlaceFail {
    ghost use Rattle.pm_beneath.specs.declared.fails.PlaceFail.TheVariants.{Memory};
    ghost use Rattle.std.specs.Prelude.{◌≡◌};

    ghost from_gives = { λ _ e. e ≡ Memory };

    fn from(_e: AllocError) -> PlaceFail {
        PlaceFail::Memory
    }
}
