// One step of double description: the rays of a front with one row more. The rays that are kept are moved.

ghost use Rattle.pm_vector.specs.Cones.{InSpan};
ghost use Rattle.pm_vector.specs.Rows.{HasCols, dot as dot_of};
ghost use Rattle.pm_vector.specs.WideInts.{value_of};
ghost use Rattle.pm_vector.specs.Bases.{IsRank, row_at};
ghost use Rattle.pm_dd.specs.Building.{IsBuilt, IsPair, NextZeros, SeenKept, StandFor, StandsFor, kept_count};
ghost use Rattle.pm_dd.specs.Form.{KeepForm};
ghost use Rattle.pm_dd.specs.Lost.{IfStepLost, IsLostSource};
ghost use Rattle.pm_dd.specs.StepFails.{IfProduct, IsStepFail};
ghost use Rattle.pm_dd.specs.Tables.{IsRayTable, zero_set};
ghost use Rattle.pm_geom.specs.Faces.{ray};
ghost use Rattle.pm_vector.specs.Products.{ProductsStay};
ghost use Rattle.std.specs.Prelude.{IfErr, IfOk, IsTrue, OnErr, length, take, true, ℕ, ◌++◌, ◌+◌, ◌<◌, ◌≡◌, ◌≢◌, ◌≤◌};

use crate::fails::StepFail;
use crate::pairs::paired_rays;
use crate::rays::Rays;
use pm_bits::BitTable;
use pm_limits::MOST_ROWS;
use pm_vector::{Ints, Wide, WideInt, dot, wide_dot};
use std::alloc::{AllocError, Global};

/// A number, or where it is outside of the range the end of the range on its side.
fn nearest(z: WideInt) -> i128
    ensures { StandsFor (value_of z) result }
{
    if let Some(same) = z.narrow() {
        return same;
    }
    if z.is_negative() {
        -i128::MAX
    } else {
        i128::MAX
    }
}

/// The product of two rows; with `wide` what stands for it.
fn product(a: &Ints, b: &Ints, wide: bool) -> Result<i128, Wide>
    requires { length a.now ≡ length b.now }
    ensures stands { IfOk result (λ v. StandsFor (dot_of a.now b.now) v) }
    ensures wide { OnErr result (¬ (ProductsStay a.now b.now)) }
    ensures never { OnErr result (¬ (IsTrue wide)) }
{
    if let Ok(value) = dot(a.as_slice(), b.as_slice()) {
        return Ok(value);
    }
    if wide {
        return Ok(nearest(wide_dot(a.as_slice(), b.as_slice())));
    }
    Err(Wide)
}

/// The products of the next row with all rays. With `wide` none is refused: where one is outside of the range, the end
/// of the range on its side stands for it.
pub fn products(alloc: Global, row: &Ints, rays: &[Ints], wide: bool) -> Result<Vec<i128>, StepFail>
    requires { HasCols (length row.now) rays.now }
    ensures stand { IfOk result (λ v. StandFor row.now rays.now v.items) }
    ensures wide { IfErr result (λ f.
        IfProduct f (λ i. (i < length rays.now) × ¬ (ProductsStay row.now (ray rays.now i)))) }
    ensures never { IfErr result (λ f. IfProduct f (λ i. ¬ (IsTrue wide))) }
{
    let mut made = Vec::with_capacity(alloc, rays.len())?;
    for i in 0..rays.len() {
        let Ok(value) = product(row, &rays[i], wide) else {
            return Err(StepFail::Product(i));
        };
        made.push(value)?;
    }
    Ok(made)
}

/// Makes the zero set of a kept ray that for the next front.
fn mark_zero(zeros: &mut BitTable, i: usize, value: i128, front: usize)
    requires place { i < length zeros.old.rows }
    requires front { front < zeros.old.row_len }
    ensures row_len { zeros.new.row_len ≡ zeros.old.row_len }
    ensures as_many { length zeros.new.rows ≡ length zeros.old.rows }
    ensures next { NextZeros (zero_set zeros.old.rows i) front value (zero_set zeros.new.rows i) }
    ensures others { (k : ℕ) → k ≢ i → zero_set zeros.new.rows k ≡ zero_set zeros.old.rows k }
{
    if value == 0 {
        zeros.set(i, front);
    }
}

/// The kept rays of a table, in their order, with their zero sets for the next front.
pub(crate) fn kept_rays(
    cols: usize,
    equations: &[Ints],
    rows: &[Ints],
    front: usize,
    rays: Rays,
    values: &[i128],
) -> Rays
    requires within { front < length rows.now }
    requires table { IsRayTable cols equations.now rows.now front rays.rows.items rays.zeros.rows }
    requires row_len { rays.zeros.row_len ≡ length rows.now }
    requires stand { StandFor (row_at rows.now front) rays.rows.items values.now }
    ensures row_len { result.zeros.row_len ≡ length rows.now }
    ensures count { length result.rows.items ≡ kept_count values.now }
    ensures built { IsBuilt cols equations.now rows.now front rays.rows.items (SeenKept (length rays.rows.items))
        result.rows.items result.zeros.rows }
{
    let mut made = rays.rows;
    let mut zeros = rays.zeros;
    let mut kept = 0;
    for i in 0..values.len() {
        let value = values[i];
        if value < 0 {
            continue;
        }
        mark_zero(&mut zeros, i, value, front);
        made.swap(kept, i);
        zeros.swap(kept, i);
        kept += 1;
    }
    made.truncate(kept);
    zeros.truncate(kept);
    Rays { rows: made, zeros }
}

/// What a step needs besides the rays of the front: the products of the next row with them, and the combinations of
/// their adjacent pairs.
#[derive(Drop)]
pub(crate) struct Step {
    pub values: Vec<i128>,
    pub pairs: Rays,
}

/// What the step at a front needs besides its rays.
pub(crate) fn step_at(
    alloc: Global,
    cols: usize,
    equations: &[Ints],
    rows: &[Ints],
    front: usize,
    rank: usize,
    rays: &Rays,
    wide: bool,
) -> Result<Step, StepFail>
    requires equation_cols { HasCols cols equations.now }
    requires row_cols { HasCols cols rows.now }
    requires within { front < length rows.now }
    requires spanned { InSpan (equations.now ++ take front rows.now) (row_at rows.now front) }
    requires rank { IsRank (equations.now ++ take front rows.now) rank }
    requires table { IsRayTable cols equations.now rows.now front rays.now.rows.items rays.now.zeros.rows }
    requires row_len { rays.now.zeros.row_len ≡ length rows.now }
    requires few { length rays.now.rows.items ≤ MOST_ROWS }
    ensures stand { IfOk result (λ s. StandFor (row_at rows.now front) rays.now.rows.items s.values.items) }
    ensures row_len { IfOk result (λ s. s.pairs.zeros.row_len ≡ length rows.now) }
    ensures few { IfOk result (λ s. kept_count s.values.items + length s.pairs.rows.items ≤ MOST_ROWS) }
    ensures built { IfOk result (λ s. IsBuilt cols equations.now rows.now front rays.now.rows.items IsPair
        s.pairs.rows.items s.pairs.zeros.rows) }
    ensures wide { IfErr result (λ f. IsStepFail cols equations.now rows.now front rays.now.rows.items f) }
    ensures lost { wide ≡ true → IfErr result (λ f.
        IfStepLost f (IsLostSource rows.now front rays.now.rows.items)) }
{
    let values = products(alloc, &rows[front], &rays.rows, wide)?;
    let pairs = paired_rays(
        alloc, cols, equations, rows, front, rank, rays, &values, wide,
    )?;
    Ok(Step { values, pairs })
}

/// The rays of the next front: the kept ones, moved, and after them the combinations, with their zero sets.
pub(crate) fn next_rays(
    cols: usize,
    equations: &[Ints],
    rows: &[Ints],
    front: usize,
    rays: Rays,
    step: Step,
) -> Result<Rays, AllocError>
    requires equation_cols { HasCols cols equations.now }
    requires row_cols { HasCols cols rows.now }
    requires within { front < length rows.now }
    requires spanned { InSpan (equations.now ++ take front rows.now) (row_at rows.now front) }
    requires table { IsRayTable cols equations.now rows.now front rays.rows.items rays.zeros.rows }
    requires row_len { rays.zeros.row_len ≡ length rows.now }
    requires stand { StandFor (row_at rows.now front) rays.rows.items step.values.items }
    requires pair_len { step.pairs.zeros.row_len ≡ length rows.now }
    requires few { kept_count step.values.items + length step.pairs.rows.items ≤ MOST_ROWS }
    requires built { IsBuilt cols equations.now rows.now front rays.rows.items IsPair
        step.pairs.rows.items step.pairs.zeros.rows }
    ensures row_len { IfOk result (λ r. r.zeros.row_len ≡ length rows.now) }
    ensures few { IfOk result (λ r. length r.rows.items ≤ MOST_ROWS) }
    ensures form { IfOk result (λ r. KeepForm rays.rows.items r.rows.items) }
    ensures table { IfOk result (λ r.
        IsRayTable cols equations.now rows.now (front + 1) r.rows.items r.zeros.rows) }
{
    let mut next = kept_rays(cols, equations, rows, front, rays, &step.values);
    let mut pairs = step.pairs;
    next.rows.append(&mut pairs.rows)?;
    next.zeros.append(pairs.zeros)?;
    Ok(next)
}
