// Whether a row is in the cone of others: exactly where a linear program has no point.

ghost use Rattle.pm_vector.specs.Cones.{InCone};
ghost use Rattle.pm_vector.specs.Numbers.{InRange};
ghost use Rattle.pm_vector.specs.Rows.{HasCols};
ghost use Rattle.pm_vector.specs.Bases.{row_at};
ghost use Rattle.pm_geom.specs.StatedOrder.{rows_marked};
ghost use Rattle.pm_redund.specs.Redundancy.{IsProgramFail};
ghost use Rattle.pm_redund.specs.Keeping.{IsChosen};
ghost use Rattle.pm_simplex.specs.Generated.{equations_of, lifted, no_objective, turned};
ghost use Rattle.std.specs.Prelude.{IfErr, IfNone, IfOk, IfSome, length, pos, true, ◌+◌, ◌<◌, ◌^◌, ◌∷◌, ◌≡◌, ◌≤◌};

use crate::chosen::Chosen;
use pm_fraction::Fraction;
use pm_incidence::ThinFail;
use pm_simplex::{LpAnswer, LpFail};
use pm_vector::Ints;
use pm_wide_programs::maximise_rows_by;
use std::alloc::{AllocError, Global};

/// A number, and then the entries of a row.
pub(crate) fn headed(alloc: Global, first: i128, row: &Ints) -> Result<Ints, AllocError>
    requires { InRange first }
    ensures { IfOk result (λ v. v ≡ first ∷ row.now) }
{
    let mut made = Ints::new(alloc);
    made.push(first)?;
    for i in 0..row.len() {
        made.push(row.get(i))?;
    }
    Ok(made)
}

/// The marked rows as rows of a program. Rows past the marks have none.
pub(crate) fn lifted_rows(
    alloc: Global,
    rows: &[Ints],
    marks: &[bool],
) -> Result<Vec<Ints>, AllocError>
    requires { length marks.now ≤ length rows.now }
    ensures { IfOk result (λ v. v.items ≡ lifted (rows_marked true marks.now rows.now)) }
{
    let mut made = Vec::new(alloc);
    for i in 0..marks.len() {
        if marks[i] {
            made.push(headed(alloc, 0, &rows[i])?)?;
        }
    }
    Ok(made)
}

/// The equations of the program of a row, or of its opposite.
fn equations(
    alloc: Global,
    lines: &[Ints],
    row: &Ints,
    opposed: bool,
) -> Result<Vec<Ints>, AllocError>
    ensures { IfOk result (λ v. v.items ≡ equations_of lines.now opposed row.now) }
{
    let mut made = Vec::new(alloc);
    for line in lines {
        made.push(headed(alloc, 0, line)?)?;
    }
    made.push(headed(alloc, if opposed { -1 } else { 1 }, row)?)?;
    Ok(made)
}

/// The objective 0.
fn no_objective(alloc: Global, cols: usize) -> Result<Vec<Fraction>, AllocError>
    ensures { IfOk result (λ v. v.items ≡ no_objective cols) }
{
    vec![in alloc; Fraction::zero(); cols]
}

/// A point of the program of the row at a place, or of its opposite, over the chosen rows: there is none exactly where
/// these and the lines generate it. By wide numbers too, where these are asked for.
pub(crate) fn point_of(
    alloc: Global,
    cols: usize,
    rows: &[Ints],
    lines: &[Ints],
    chosen: &Chosen,
    i: usize,
    opposed: bool,
    wide: bool,
) -> Result<Option<Vec<Fraction>>, ThinFail>
    requires row_cols { HasCols cols rows.now }
    requires line_cols { HasCols cols lines.now }
    requires place { i < length rows.now }
    requires few_rows { length rows.now ≤ 2 ^ 30 }
    requires few_lines { length lines.now < 2 ^ 30 }
    requires few_columns { cols < 2 ^ 30 }
    requires chosen { IsChosen rows.now chosen.now }
    ensures generated { IfOk result (λ p. IfNone p
        (InCone (rows_marked true chosen.now.marks.items rows.now) lines.now (turned opposed (row_at rows.now i)))) }
    ensures apart { IfOk result (λ p. IfSome p (λ _.
        ¬ (InCone (rows_marked true chosen.now.marks.items rows.now) lines.now (turned opposed (row_at rows.now i))))) }
    ensures failed { IfErr result (IsProgramFail cols rows.now lines.now) }
{
    let ties = equations(alloc, lines, &rows[i], opposed)?;
    let objective = no_objective(alloc, cols + 1)?;
    match maximise_rows_by(alloc, &chosen.lifted, &ties, &objective, wide) {
        Ok(LpAnswer::Infeasible { .. }) => Ok(None),
        Ok(LpAnswer::Optimal { point, .. }) => Ok(Some(point)),
        Ok(LpAnswer::Unbounded { point, .. }) => Ok(Some(point)),
        Err(LpFail::Wide(evidence)) => Err(ThinFail::Wide(evidence)),
        Err(LpFail::Memory) => Err(ThinFail::Memory),
    }
}
