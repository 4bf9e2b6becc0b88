// Rows of the lineality. A functional that no row is below, and that is 0 on the lines, tells of the rows above it
// that they are outside; it grows with each program that has a point.

ghost use Rattle.pm_vector.specs.Cones.{InCone};
ghost use Rattle.pm_vector.specs.Rows.{HasCols, opposite};
ghost use Rattle.pm_vector.specs.Bases.{row_at};
ghost use Rattle.pm_geom.specs.StatedOrder.{rows_marked};
ghost use Rattle.pm_redund.specs.Keeping.{IsChosen, IsSupport};
ghost use Rattle.pm_redund.specs.Redundancy.{IsProgramFail};
ghost use Rattle.pm_simplex.specs.Lineality.{MarkLines};
ghost use Rattle.std.specs.Prelude.{IfErr, IfOk, IfSome, IsSomeAnd, IsTrue, OnOk, get_or, length, pos, true, ◌<◌, ◌<ℤ◌, ◌^◌, ◌≡◌, ◌≤◌, ◌↔◌};

use crate::chosen::{Chosen, chosen_of};
use crate::generated::point_of;
use crate::levels::{direction_of, none_negative, products_of, vanishes_on};
use pm_fraction::Fraction;
use pm_geom::unit_row;
use pm_incidence::ThinFail;
use pm_vector::{Ints, combine};
use std::alloc::{AllocError, Global};

/// A functional that no row is below, and the products of the rows with it.
#[derive(Drop)]
pub(crate) struct Support {
    pub row: Ints,
    pub heights: Vec<i128>,
}

/// Marks of the rows of the lineality, and a functional that is 0 on these.
#[derive(Drop)]
pub(crate) struct Lineality {
    pub marks: Vec<bool>,
    pub support: Option<Support>,
}

/// The functional that a row is, where exact products show that no row is below it and that it is 0 on the lines.
fn support_by(
    alloc: Global,
    cols: usize,
    rows: &[Ints],
    lines: &[Ints],
    row: Ints,
) -> Result<Option<Support>, AllocError>
    requires row_cols { HasCols cols rows.now }
    requires line_cols { HasCols cols lines.now }
    requires cols { length row ≡ cols }
    ensures { IfOk result (λ o. IfSome o (IsSupport cols rows.now lines.now)) }
{
    if !vanishes_on(&row, lines) {
        return Ok(None);
    }
    let Some(heights) = products_of(alloc, &row, rows)? else {
        return Ok(None);
    };
    if !none_negative(&heights) {
        return Ok(None);
    }
    Ok(Some(Support { row, heights }))
}

/// The functional (1, 0, .., 0), where it is one.
fn first_support(
    alloc: Global,
    cols: usize,
    rows: &[Ints],
    lines: &[Ints],
) -> Result<Option<Support>, AllocError>
    requires row_cols { HasCols cols rows.now }
    requires line_cols { HasCols cols lines.now }
    ensures { IfOk result (λ o. IfSome o (IsSupport cols rows.now lines.now)) }
{
    if cols == 0 {
        return Ok(None);
    }
    let row = unit_row(alloc, cols, 0)?;
    support_by(alloc, cols, rows, lines, row)
}

/// The sum of a functional and a row. None where it leaves the range.
fn raised(support: &Option<Support>, mut row: Ints) -> Option<Ints>
    requires { IfSome support.now (λ s. length s.row ≡ length row) }
    ensures { IfSome result (λ v. length v ≡ length row) }
{
    let Some(held) = support else {
        return Some(row);
    };
    match combine(1, &mut row, -1, &held.row) {
        Ok(()) => Some(row),
        Err(_) => None,
    }
}

/// Raises a functional by a point of a program, where the sum is one too.
fn raise(
    alloc: Global,
    cols: usize,
    rows: &[Ints],
    lines: &[Ints],
    support: &mut Option<Support>,
    point: &[Fraction],
) -> Result<(), AllocError>
    requires row_cols { HasCols cols rows.now }
    requires line_cols { HasCols cols lines.now }
    requires support { IfSome support.old (IsSupport cols rows.now lines.now) }
    ensures support { OnOk result (IfSome support.new (IsSupport cols rows.now lines.now)) }
{
    let Some(direction) = direction_of(alloc, cols, point)? else {
        return Ok(());
    };
    let Some(row) = raised(support, direction) else {
        return Ok(());
    };
    let better = support_by(alloc, cols, rows, lines, row)?;
    if better.is_some() {
        *support = better;
    }
    Ok(())
}

/// Whether the row at a place is above the functional.
fn is_above(support: &Option<Support>, i: usize) -> bool
    requires { IfSome support.now (λ s. i < length s.heights.items) }
    ensures { IsTrue result → IsSomeAnd support.now (λ s. pos 0 <ℤ get_or s.heights.items i (pos 0)) }
{
    match support {
        Some(held) => held.heights[i] > 0,
        None => false,
    }
}

/// Whether the opposite of the row at a place is in the cone of all rows and the lines.
fn is_line(
    alloc: Global,
    cols: usize,
    rows: &[Ints],
    lines: &[Ints],
    all: &Chosen,
    support: &mut Option<Support>,
    i: usize,
    wide: bool,
) -> Result<bool, ThinFail>
    requires row_cols { HasCols cols rows.now }
    requires line_cols { HasCols cols lines.now }
    requires few_rows { length rows.now ≤ 2 ^ 30 }
    requires few_lines { length lines.now < 2 ^ 30 }
    requires few_columns { cols < 2 ^ 30 }
    requires place { i < length rows.now }
    requires chosen { IsChosen rows.now all.now }
    requires all { rows_marked true all.now.marks.items rows.now ≡ rows.now }
    requires support { IfSome support.old (IsSupport cols rows.now lines.now) }
    ensures line { IfOk result (λ b. IsTrue b ↔ InCone rows.now lines.now (opposite (row_at rows.now i))) }
    ensures support { OnOk result (IfSome support.new (IsSupport cols rows.now lines.now)) }
    ensures failed { IfErr result (IsProgramFail cols rows.now lines.now) }
{
    if is_above(support, i) {
        return Ok(false);
    }
    let Some(point) = point_of(alloc, cols, rows, lines, all, i, true, wide)? else {
        return Ok(true);
    };
    raise(alloc, cols, rows, lines, support, &point)?;
    Ok(false)
}

/// All rows.
fn all_chosen(alloc: Global, rows: &[Ints]) -> Result<Chosen, AllocError>
    ensures chosen { IfOk result (IsChosen rows.now) }
    ensures all { IfOk result (λ c. rows_marked true c.marks.items rows.now ≡ rows.now) }
{
    let all = chosen_of(alloc, rows, vec![in alloc; true; rows.len()]?)?;
    Ok(all)
}

/// Marks of the rows whose opposite is in the cone of all, and a functional that is 0 on these.
pub(crate) fn lineality_of(
    alloc: Global,
    cols: usize,
    rows: &[Ints],
    lines: &[Ints],
    wide: bool,
) -> Result<Lineality, ThinFail>
    requires row_cols { HasCols cols rows.now }
    requires line_cols { HasCols cols lines.now }
    requires few_rows { length rows.now ≤ 2 ^ 30 }
    requires few_lines { length lines.now < 2 ^ 30 }
    requires few_columns { cols < 2 ^ 30 }
    ensures marked { IfOk result (λ m. MarkLines rows.now lines.now m.marks.items) }
    ensures support { IfOk result (λ m. IfSome m.support (IsSupport cols rows.now lines.now)) }
    ensures failed { IfErr result (IsProgramFail cols rows.now lines.now) }
{
    let all = all_chosen(alloc, rows)?;
    let mut support = first_support(alloc, cols, rows, lines)?;
    let mut marks = Vec::new(alloc);
    for i in 0..rows.len() {
        let line = is_line(alloc, cols, rows, lines, &all, &mut support, i, wide)?;
        marks.push(line)?;
    }
    Ok(Lineality { marks, support })
}
