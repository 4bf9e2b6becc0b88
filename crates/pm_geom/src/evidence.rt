// Evidence that an engine or a client cannot answer.

ghost use Rattle.pm_geom.specs.Evidence.{evidence_number};
ghost use Rattle.std.specs.Prelude.{IfOk, ◌≡◌};

use crate::lists::{PlaceSets, Places, RowList};
use pm_vector::{ElimEvidence, Ints};
use std::alloc::{AllocError, Global};

/// Why there is no answer, shown by values that anyone can check. What each kind shows of the rows that were handed in
/// is said where it is used; a kind that nothing uses yet shows nothing.
#[derive(Debug, Drop)]
pub enum Evidence {
    /// A step of an elimination that leaves the range.
    E1(ElimEvidence),
    /// Two extreme rays of the cone that the first `front` rows cut out: a product of the next row with one of them
    /// leaves the range, or their combination that vanishes on the next row leaves it in `column`.
    E2 {
        front: u32,
        first: Ints,
        second: Ints,
        column: Option<u32>,
    },
    /// A pivot of the dictionary of a linear program with this basis, and the new entry that leaves the range.
    E3 {
        basis: Places,
        enter: u32,
        leave: u32,
        row: u32,
        column: u32,
    },
    /// Two rows by which a number leaves the range: a generator and a half-space, in this order, by their product; an
    /// objective and a ray, a line or (1, 0, .., 0); a facet row and its multiplier in a dual; a site and its height.
    E4 {
        first: Ints,
        second: Ints,
    },
    /// More than `MOST_ROWS` extreme rays of the cone that the first `front` rows cut out.
    E5Rays {
        front: u32,
        rays: RowList,
    },
    /// The places of more than `MOST_ROWS` facet rows among half-spaces.
    E5Rows {
        rows: Places,
    },
    /// Faces that are more than `MOST_FACES`, or have more than `MOST_PLACES` indices.
    E5Faces {
        faces: PlaceSets,
    },
    /// More than `MOST_ROWS` cells of the placing triangulation of the first `front` rows.
    E5Cells {
        front: u32,
        cells: PlaceSets,
    },
}

impl Evidence {
    /// The digit in the evidence's name.
    pub fn number(&self) -> u8
        ensures { result ≡ evidence_number self.now }
    {
        match self {
            Evidence::E1(_) => 1,
            Evidence::E2 { .. } => 2,
            Evidence::E3 { .. } => 3,
            Evidence::E4 { .. } => 4,
            Evidence::E5Rays { .. } => 5,
            Evidence::E5Rows { .. } => 5,
            Evidence::E5Faces { .. } => 5,
            Evidence::E5Cells { .. } => 5,
        }
    }

    /// The same evidence.
    pub fn copy(&self, alloc: Global) -> Result<Evidence, AllocError>
        ensures { IfOk result (λ e. e ≡ self.now) }
    {
        match self {
            Evidence::E1(step) => Ok(Evidence::E1(step.copy(alloc)?)),
            Evidence::E2 {
                front,
                first,
                second,
                column,
            } => Ok(Evidence::E2 {
                front: *front,
                first: first.copy(alloc)?,
                second: second.copy(alloc)?,
                column: *column,
            }),
            Evidence::E3 {
                basis,
                enter,
                leave,
                row,
                column,
            } => Ok(Evidence::E3 {
                basis: basis.copy(alloc)?,
                enter: *enter,
                leave: *leave,
                row: *row,
                column: *column,
            }),
            Evidence::E4 { first, second } => Ok(Evidence::E4 {
                first: first.copy(alloc)?,
                second: second.copy(alloc)?,
            }),
            Evidence::E5Rays { front, rays } => Ok(Evidence::E5Rays {
                front: *front,
                rays: rays.copy(alloc)?,
            }),
            Evidence::E5Rows { rows } => Ok(Evidence::E5Rows {
                rows: rows.copy(alloc)?,
            }),
            Evidence::E5Faces { faces } => Ok(Evidence::E5Faces {
                faces: faces.copy(alloc)?,
            }),
            Evidence::E5Cells { front, cells } => Ok(Evidence::E5Cells {
                front: *front,
                cells: cells.copy(alloc)?,
            }),
        }
    }
}
