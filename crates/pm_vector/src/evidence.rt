// Evidence that an elimination leaves the range: one step of it.

ghost use Rattle.std.specs.Prelude.{IfOk, ◌≡◌};

use crate::Ints;
use crate::rows::copies;
use std::alloc::{AllocError, Global};
use std::marker::Model;

/// Which list of rows an elimination went through: the rows handed in, the extended list of them, or the same of
/// these rows without the one at a place.
#[derive(Clone, Copy, Debug, PartialEq, Eq)]
pub enum ElimList {
    Rows,
    Extended,
    Without(u32),
    ExtendedWithout(u32),
}

/// One elimination step that leaves the range from -(2^127 - 1) to 2^127 - 1.
/// `basis` is the echelon basis of the first `front` rows of the list.
/// Where `by` is a place of the basis, `part` is the next row, reduced by the basis rows before that place, and its
/// step by the row at that place leaves the range in `column`.
/// Where `by` is the number of basis rows, `part` is one of them, and its step by the next row, reduced by all of
/// them and made primitive with a positive pivot, leaves the range in `column`.
#[derive(Debug, Drop)]
pub struct ElimEvidence {
    pub list: ElimList,
    pub front: u32,
    pub basis: Vec<Ints>,
    pub part: Ints,
    pub by: u32,
    pub column: u32,
}

impl Model for ElimEvidence {
    ghost use Rattle.pm_vector.specs.EliminationSteps.{EliminationStep};

    ghost Value = { EliminationStep };

    ghost view = { λ e. record { list = e.list; front = e.front; basis = e.basis.items; part = e.part; by = e.by; column = e.column } };
}

impl ElimEvidence {
    /// The same evidence.
    pub fn copy(&self, alloc: Global) -> Result<ElimEvidence, AllocError>
        ensures { IfOk result (λ e. e ≡ self.now) }
    {
        Ok(ElimEvidence {
            list: self.list,
            front: self.front,
            basis: copies(alloc, &self.basis)?,
            part: self.part.copy(alloc)?,
            by: self.by,
            column: self.column,
        })
    }
}
