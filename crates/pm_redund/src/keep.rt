// Which rows are kept: of those that are enough none that the others generate.

ghost use Rattle.pm_vector.specs.Rows.{HasCols};
ghost use Rattle.pm_redund.specs.Redundancy.{IsProgramFail};
ghost use Rattle.pm_redund.specs.Redundancy.{AreKeptPlaces, IsEnough, IsKeptRow, IsRedundant, IsThinnedTo};
ghost use Rattle.pm_redund.specs.Keeping.{AreNeeded};
ghost use Rattle.std.specs.Prelude.{IfErr, IfOk, IsTrue, OnOk, length, ◌+◌, ◌<◌, ◌^◌, ◌≡◌, ◌≤◌, ◌↔◌};

use crate::chosen::chosen_of;
use crate::enough::Enough;
use crate::generated::point_of;
use pm_incidence::ThinFail;
use pm_vector::Ints;
use std::alloc::{AllocError, Global};

/// Whether the row at a place is marked and is outside of the lineality.
fn is_kept(line_marks: &[bool], marks: &[bool], i: usize) -> bool
    requires line_marks { i < length line_marks.now }
    requires marks { i < length marks.now }
    ensures { IsTrue result ↔ IsKeptRow line_marks.now marks.now i }
{
    marks[i] && !line_marks[i]
}

/// Whether other marked rows generate the row at a place.
fn is_redundant(
    alloc: Global,
    cols: usize,
    rows: &[Ints],
    lines: &[Ints],
    marks: &[bool],
    i: usize,
    wide: bool,
) -> Result<bool, ThinFail>
    requires row_cols { HasCols cols rows.now }
    requires line_cols { HasCols cols lines.now }
    requires few_rows { length rows.now ≤ 2 ^ 30 }
    requires few_lines { length lines.now < 2 ^ 30 }
    requires few_columns { cols < 2 ^ 30 }
    requires marks { length marks.now ≡ length rows.now }
    requires place { i < length rows.now }
    ensures redundant { IfOk result (λ b. IsTrue b ↔ IsRedundant rows.now lines.now marks.now i) }
    ensures failed { IfErr result (IsProgramFail cols rows.now lines.now) }
{
    let mut others = Vec::from_slice(alloc, marks)?;
    others[i] = false;
    let chosen = chosen_of(alloc, rows, others)?;
    let point = point_of(alloc, cols, rows, lines, &chosen, i, false, wide)?;
    Ok(point.is_none())
}

/// Takes the mark of a kept row away where it is redundant: those that are surely needed stay.
fn thin_at(
    alloc: Global,
    cols: usize,
    rows: &[Ints],
    lines: &[Ints],
    line_marks: &[bool],
    sure: &[bool],
    marks: &mut Vec<bool>,
    i: usize,
    wide: bool,
) -> Result<(), ThinFail>
    requires row_cols { HasCols cols rows.now }
    requires line_cols { HasCols cols lines.now }
    requires few_rows { length rows.now ≤ 2 ^ 30 }
    requires few_lines { length lines.now < 2 ^ 30 }
    requires few_columns { cols < 2 ^ 30 }
    requires line_marks { length line_marks.now ≡ length rows.now }
    requires sure { AreNeeded rows.now lines.now sure.now }
    requires place { i < length rows.now }
    requires thinned { IsThinnedTo rows.now lines.now line_marks.now i marks.old.items }
    ensures thinned { OnOk result (IsThinnedTo rows.now lines.now line_marks.now (i + 1) marks.new.items) }
    ensures failed { IfErr result (IsProgramFail cols rows.now lines.now) }
{
    if sure[i] || !is_kept(line_marks, marks, i) {
        return Ok(());
    }
    marks[i] = !is_redundant(alloc, cols, rows, lines, marks, i, wide)?;
    Ok(())
}

/// Takes the marks of redundant rows away, one after another.
pub(crate) fn thin_marks(
    alloc: Global,
    cols: usize,
    rows: &[Ints],
    lines: &[Ints],
    line_marks: &[bool],
    enough: Enough,
    wide: bool,
) -> Result<Vec<bool>, ThinFail>
    requires row_cols { HasCols cols rows.now }
    requires line_cols { HasCols cols lines.now }
    requires few_rows { length rows.now ≤ 2 ^ 30 }
    requires few_lines { length lines.now < 2 ^ 30 }
    requires few_columns { cols < 2 ^ 30 }
    requires line_marks { length line_marks.now ≡ length rows.now }
    requires enough { IsEnough rows.now lines.now enough.chosen.marks.items }
    requires needed { AreNeeded rows.now lines.now enough.sure.items }
    ensures thinned { IfOk result (λ m.
        IsThinnedTo rows.now lines.now line_marks.now (length rows.now) m.items) }
    ensures failed { IfErr result (IsProgramFail cols rows.now lines.now) }
{
    let Enough { chosen, sure } = enough;
    let mut marks = chosen.marks;
    for i in 0..rows.len() {
        thin_at(
            alloc, cols, rows, lines, line_marks, &sure, &mut marks, i, wide,
        )?;
    }
    Ok(marks)
}

/// The places of the kept rows.
pub(crate) fn kept_places(
    alloc: Global,
    rows: &[Ints],
    line_marks: &[bool],
    marks: &[bool],
) -> Result<Vec<usize>, AllocError>
    requires line_marks { length line_marks.now ≡ length rows.now }
    requires marks { length marks.now ≡ length rows.now }
    ensures kept { IfOk result (λ v. AreKeptPlaces rows.now line_marks.now marks.now v.items) }
    ensures few { IfOk result (λ v. length v.items ≤ length rows.now) }
{
    let mut places = Vec::new(alloc);
    for i in 0..rows.len() {
        if is_kept(line_marks, marks, i) {
            places.push(i)?;
        }
    }
    Ok(places)
}
