// The rays at which an objective has a value.

ghost use Rattle.pm_vector.specs.Rows.{HasCols, ratio_at};
ghost use Rattle.pm_fraction.specs.Arithmetic.{opposite_of};
ghost use Rattle.pm_simplex.specs.OptimumEvidence.{IsWideLevel, ShowsFace, ShowsProduct};
ghost use Rattle.pm_optima.specs.Objectives.{AreZeroPlaces, IsPrimitiveLevel};
ghost use Rattle.pm_simplex.specs.Senses.{objective_in, ratio_in, value_in};
ghost use Rattle.pm_simplex.specs.Fails.{IfWide};
ghost use Rattle.pm_types.specs.Forms.{HasPrimitiveRow, is_counts_form};
ghost use Rattle.pm_types.specs.Programs.{ArePlacesOfValue};
ghost use Rattle.pm_types.specs.Values.{finite};
ghost use Rattle.std.specs.Prelude.{IfErr, IfNone, IfOk, IfSome, IsTrue, length, suc, ℕ, ◌<◌, ◌≡◌, ◌≤◌};
ghost use Rattle.pm_limits.specs.Limits.{most_rows};

use crate::objective::primitive_objective;
use crate::products::wide_pair;
use pm_fraction::{Fraction, RowFail, primitive_row};
use pm_geom::unit_row;
use pm_simplex::{LpFail, Sense};
use pm_vector::{Ints, Wide, dot};
use std::alloc::{AllocError, Global};

/// The first fraction, and then the opposites of those of the objective behind its first.
fn level_row(
    alloc: Global,
    first: Fraction,
    objective: &[Fraction],
) -> Result<Vec<Fraction>, AllocError>
    requires { 0 < length objective.now }
    ensures cols { IfOk result (λ r. length r.items ≡ length objective.now) }
    ensures first { IfOk result (λ r. ratio_at r.items 0 ≡ first) }
    ensures others { IfOk result (λ r. (i : ℕ) → suc i < length objective.now
        → ratio_at r.items (suc i) ≡ opposite_of (ratio_at objective.now (suc i))) }
{
    let mut row = vec![in alloc; first; 1]?;
    for i in 1..objective.len() {
        row.push(objective[i].neg())?;
    }
    Ok(row)
}

/// The primitive row that vanishes where an objective has a value; None where it is not made within the range.
fn primitive_level(
    alloc: Global,
    objective: &[Fraction],
    value: Fraction,
) -> Result<Option<Ints>, AllocError>
    requires { 0 < length objective.now }
    ensures some { IfOk result (λ o. IfSome o (IsPrimitiveLevel objective.now value)) }
    ensures none { IfOk result (λ o. IfNone o (IsWideLevel objective.now value)) }
{
    let Ok(first) = value.sub(objective[0]) else {
        return Ok(None);
    };
    let fractions = level_row(alloc, first, objective)?;
    match primitive_row(alloc, &fractions) {
        Ok(row) => Ok(Some(row)),
        Err(RowFail::Wide { .. }) => Ok(None),
        Err(RowFail::Memory) => Err(AllocError),
    }
}

/// The places of the rows on which a row vanishes, ascending.
fn zero_places(alloc: Global, row: &Ints, rows: &[Ints]) -> Result<Vec<i64>, LpFail>
    requires cols { HasCols (length row.now) rows.now }
    requires few { length rows.now ≤ most_rows }
    ensures places { IfOk result (λ v. AreZeroPlaces row.now rows.now (length rows.now) v.items) }
    ensures form { IfOk result (λ v. IsTrue (is_counts_form v.items)) }
    ensures wide { IfErr result (λ f. IfWide f (ShowsProduct row.now rows.now)) }
{
    let mut places = Vec::new(alloc);
    for i in 0..rows.len() {
        let product = match dot(row.as_slice(), rows[i].as_slice()) {
            Ok(product) => product,
            Err(Wide) => return Err(wide_pair(alloc, row, &rows[i])?),
        };
        if product == 0 {
            places.push(i as i64)?;
        }
    }
    Ok(places)
}

/// The places, ascending, of the rays at which an objective has its greatest or least value, which is handed in. All
/// rows have as many entries as the objective.
/// `Wide` only where, for the objective c and the value v, the row v e0 - c or its opposite, its primitive row, or
/// the product of this with a ray leaves the range, which the evidence (E4) shows.
pub fn places_of_value(
    alloc: Global,
    sense: Sense,
    objective: &[Fraction],
    value: Fraction,
    rays: &[Ints],
) -> Result<Vec<i64>, LpFail>
    requires stays { HasPrimitiveRow objective.now }
    requires some { 0 < length objective.now }
    requires cols { HasCols (length objective.now) rays.now }
    requires few { length rays.now ≤ most_rows }
    ensures places { IfOk result (λ v.
        ArePlacesOfValue (objective_in sense objective.now) (value_in sense
        (finite value)) rays.now v.items) }
    ensures form { IfOk result (λ v. IsTrue (is_counts_form v.items)) }
    ensures wide { IfErr result (λ f.
        IfWide f (ShowsFace sense objective.now (ratio_in sense value) rays.now)) }
{
    let _ = value.den();
    let row = primitive_objective(alloc, objective)?;
    let turned = sense.objective(alloc, objective)?;
    let Some(level) = primitive_level(alloc, &turned, sense.value(value))? else {
        let first = unit_row(alloc, objective.len(), 0)?;
        return Err(wide_pair(alloc, &row, &first)?);
    };
    zero_places(alloc, &level, rays)
}
