// All steps, and what a refusal of one shows.

ghost use Rattle.pm_vector.specs.Rows.{HasCols};
ghost use Rattle.pm_dd.specs.Form.{AreReduced};
ghost use Rattle.pm_dd.specs.Fronts.{HalfSpaces};
ghost use Rattle.pm_dd.specs.Lost.{HasWideRayOnRows, IfStepLost, IfWide, IsLostSource};
ghost use Rattle.pm_dd.specs.Refusals.{IsShownOnRows};
ghost use Rattle.pm_dd.specs.StepFails.{IsStepFail};
ghost use Rattle.pm_dd.specs.Tables.{IsRayTable};
ghost use Rattle.pm_vector.specs.Bases.{IsRank, SameSpan};
ghost use Rattle.pm_geom.specs.Cones.{IsOrder};
ghost use Rattle.std.specs.Prelude.{IfErr, IfNone, IfOk, IfSome, length, take, true, ◌*◌, ◌++◌, ◌+◌, ◌<◌, ◌^◌, ◌≡◌, ◌≤◌};

use crate::fails::{DdFail, StepFail};
use crate::rays::Rays;
use crate::step::{next_rays, step_at};
use pm_geom::{Evidence, RowList};
use pm_limits::MOST_ROWS;
use pm_vector::Ints;
use std::alloc::{AllocError, Global};

/// Evidence of two rays of the first `front` rows.
fn pair_evidence(
    alloc: Global,
    front: usize,
    first: &Ints,
    second: &Ints,
    column: Option<u32>,
) -> Result<Evidence, AllocError>
    requires { front < 2 ^ 32 }
    ensures { IfOk result (λ e. e ≡ Evidence.E2 front first.now second.now column) }
{
    Ok(Evidence::E2 {
        front: front as u32,
        first: first.copy(alloc)?,
        second: second.copy(alloc)?,
        column,
    })
}

/// The refusal of the step at a front, whose rays these are. In the stated order the opposites of the equations stand
/// before the front.
pub fn refusal_of(
    alloc: Global,
    cols: usize,
    equations: &[Ints],
    rows: &[Ints],
    start: usize,
    front: usize,
    rays: &[Ints],
    fail: StepFail,
) -> DdFail
    requires few_rows { length rows.now + 2 * length equations.now < 2 ^ 32 }
    requires few_columns { cols < 2 ^ 31 }
    requires from { start ≤ front }
    requires within { front < length rows.now }
    requires order { IsOrder cols (HalfSpaces equations.now (take front rows.now)) rays.now }
    requires reduced { AreReduced cols (equations.now ++ take start rows.now) rays.now }
    requires fail { IsStepFail cols equations.now rows.now front rays.now fail }
    ensures shown { IsShownOnRows cols equations.now rows.now start result }
    ensures lost { IfStepLost fail (IsLostSource rows.now front rays.now)
        → IfWide result (HasWideRayOnRows cols equations.now rows.now start) }
{
    let place = front + 2 * equations.len();
    let evidence = match fail {
        StepFail::Product(k) => pair_evidence(alloc, place, &rays[k], &rays[k], None),
        StepFail::Pair {
            first,
            second,
            column,
        } => pair_evidence(
            alloc,
            place,
            &rays[first],
            &rays[second],
            Some(column as u32),
        ),
        StepFail::Many(made) => {
            return DdFail::Many(Evidence::E5Rays {
                front: (place + 1) as u32,
                rays: RowList::from_vec(made),
            });
        }
        StepFail::Memory => return DdFail::Memory,
    };
    match evidence {
        Ok(shown) => DdFail::Wide(shown),
        Err(AllocError) => DdFail::Memory,
    }
}

/// The rays of a front with one row more, or a refusal with its evidence.
pub fn rays_after(
    alloc: Global,
    cols: usize,
    equations: &[Ints],
    rows: &[Ints],
    start: usize,
    front: usize,
    rays: Rays,
    wide: bool,
) -> Result<Rays, DdFail>
    requires equation_cols { HasCols cols equations.now }
    requires row_cols { HasCols cols rows.now }
    requires few_rows { length rows.now + 2 * length equations.now < 2 ^ 32 }
    requires few_columns { cols < 2 ^ 31 }
    requires from { start ≤ front }
    requires within { front < length rows.now }
    requires spans { SameSpan (equations.now ++ take start rows.now) (equations.now ++ rows.now) }
    requires rank { IsRank (equations.now ++ rows.now) (length equations.now + start) }
    requires table { IsRayTable cols equations.now rows.now front rays.rows.items rays.zeros.rows }
    requires row_len { rays.zeros.row_len ≡ length rows.now }
    requires few { length rays.rows.items ≤ MOST_ROWS }
    requires reduced { AreReduced cols (equations.now ++ take start rows.now) rays.rows.items }
    ensures table { IfOk result (λ r.
        IsRayTable cols equations.now rows.now (front + 1) r.rows.items r.zeros.rows) }
    ensures row_len { IfOk result (λ r. r.zeros.row_len ≡ length rows.now) }
    ensures few { IfOk result (λ r. length r.rows.items ≤ MOST_ROWS) }
    ensures reduced { IfOk result (λ r.
        AreReduced cols (equations.now ++ take start rows.now) r.rows.items) }
    ensures shown { IfErr result (IsShownOnRows cols equations.now rows.now start) }
    ensures lost { wide ≡ true → IfErr result (λ f.
        IfWide f (HasWideRayOnRows cols equations.now rows.now start)) }
{
    let rank = equations.len() + start;
    let step = match step_at(alloc, cols, equations, rows, front, rank, &rays, wide) {
        Ok(step) => step,
        Err(fail) => {
            return Err(refusal_of(alloc, cols, equations, rows, start, front, &rays.rows, fail));
        }
    };
    let next = next_rays(cols, equations, rows, front, rays, step)?;
    Ok(next)
}

/// The rays of all rows: those of the first `start`, which with the equations are independent, and one step for each
/// further row. None where a front has more than `most` rays.
pub(crate) fn all_rays(
    alloc: Global,
    cols: usize,
    equations: &[Ints],
    rows: &[Ints],
    start: usize,
    first: Rays,
    wide: bool,
    most: usize,
) -> Result<Option<Rays>, DdFail>
    requires equation_cols { HasCols cols equations.now }
    requires row_cols { HasCols cols rows.now }
    requires few_rows { length rows.now + 2 * length equations.now < 2 ^ 32 }
    requires few_columns { cols < 2 ^ 31 }
    requires within { start ≤ length rows.now }
    requires spans { SameSpan (equations.now ++ take start rows.now) (equations.now ++ rows.now) }
    requires rank { IsRank (equations.now ++ rows.now) (length equations.now + start) }
    requires table { IsRayTable cols equations.now rows.now start first.rows.items first.zeros.rows }
    requires row_len { first.zeros.row_len ≡ length rows.now }
    requires few { length first.rows.items ≤ MOST_ROWS }
    requires reduced { AreReduced cols (equations.now ++ take start rows.now) first.rows.items }
    ensures order { IfOk result (λ o. IfSome o (λ r.
        IsOrder cols (HalfSpaces equations.now rows.now) r.rows.items)) }
    ensures few { IfOk result (λ o. IfSome o (λ r. length r.rows.items ≤ MOST_ROWS)) }
    ensures reduced { IfOk result (λ o. IfSome o (λ r.
        AreReduced cols (equations.now ++ take start rows.now) r.rows.items)) }
    ensures none { IfOk result (λ o. IfNone o (most < MOST_ROWS)) }
    ensures shown { IfErr result (IsShownOnRows cols equations.now rows.now start) }
    ensures lost { wide ≡ true → IfErr result (λ f.
        IfWide f (HasWideRayOnRows cols equations.now rows.now start)) }
{
    let mut rays = first;
    for front in start..rows.len() {
        rays = rays_after(alloc, cols, equations, rows, start, front, rays, wide)?;
        if rays.rows.len() > most {
            return Ok(None);
        }
    }
    Ok(Some(rays))
}
