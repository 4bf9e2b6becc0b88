// Which rows are kept, and the lineality.

ghost use Rattle.pm_vector.specs.Rows.{HasCols};
ghost use Rattle.pm_redund.specs.Redundancy.{AreIrredundantPlaces, IsEnough, IsRedundancyFail};
ghost use Rattle.pm_redund.specs.Keeping.{AreNeeded};
ghost use Rattle.pm_simplex.specs.Lineality.{MarkLines};
ghost use Rattle.std.specs.Prelude.{IfErr, IfOk, length, ◌<◌, ◌^◌, ◌≤◌};

use crate::enough::Enough;
use crate::keep::{kept_places, thin_marks};
use pm_elim::echelon_by;
use pm_incidence::{Kept, ThinFail, with_marked};
use pm_vector::Ints;
use std::alloc::Global;

/// What is kept of rows, of which some are enough, and some have marks for lying in the lineality.
pub(crate) fn kept_of(
    alloc: Global,
    cols: usize,
    rows: &[Ints],
    lines: &[Ints],
    line_marks: &[bool],
    enough: Enough,
    wide: bool,
) -> Result<Kept, ThinFail>
    requires row_cols { HasCols cols rows.now }
    requires line_cols { HasCols cols lines.now }
    requires few_rows { length rows.now ≤ 2 ^ 30 }
    requires few_lines { length lines.now < 2 ^ 30 }
    requires few_columns { cols < 2 ^ 30 }
    requires marked { MarkLines rows.now lines.now line_marks.now }
    requires enough { IsEnough rows.now lines.now enough.chosen.marks.items }
    requires needed { AreNeeded rows.now lines.now enough.sure.items }
    ensures kept { IfOk result (λ k.
        AreIrredundantPlaces cols rows.now lines.now k.basis.rows k.basis.pivots k.places.items) }
    ensures few { IfOk result (λ k. length k.places.items ≤ length rows.now) }
    ensures failed { IfErr result (IsRedundancyFail cols rows.now lines.now) }
{
    let group = with_marked(alloc, lines, rows, line_marks)?;
    let basis = echelon_by(alloc, &group, cols, wide)?;
    let marks = thin_marks(alloc, cols, rows, lines, line_marks, enough, wide)?;
    let places = kept_places(alloc, rows, line_marks, &marks)?;
    Ok(Kept { basis, places })
}
