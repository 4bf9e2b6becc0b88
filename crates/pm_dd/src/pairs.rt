// The combinations of adjacent pairs of rays.

ghost use Rattle.pm_vector.specs.Cones.{InSpan};
ghost use Rattle.pm_bits.specs.Sets.{IsSubset};
ghost use Rattle.pm_vector.specs.Rows.{HasCols, dot, entry};
ghost use Rattle.pm_vector.specs.Bases.{IsRank, row_at};
ghost use Rattle.pm_dd.specs.Building.{AreNegativesLeft, IsBuilt, IsCombination, IsNoPair, IsPair, IsPairRay, IsPassed, StandFor, kept_count};
ghost use Rattle.pm_dd.specs.Lost.{IfStepLost, IsLostSource, IsLostTablePair};
ghost use Rattle.pm_dd.specs.StepFails.{IsPairFailOf, IsStepFail, IsTablePair};
ghost use Rattle.pm_dd.specs.Tables.{IsRayTable, zero_set};
ghost use Rattle.pm_geom.specs.Faces.{ray};
ghost use Rattle.std.specs.Prelude.{IfErr, IfNone, IfOk, IfSome, length, pos, take, true, ℕ, ◌++◌, ◌+◌, ◌-◌, ◌<ℤ◌, ◌<◌, ◌≡◌, ◌≤◌};

use crate::combination::combination_of;
use crate::fails::{CombinationFail, StepFail};
use crate::many::{count_kept, too_many};
use crate::near::{Unions, near_negatives, unions_of};
use crate::rays::{Ray, Rays};
use pm_bits::BitRow;
use pm_limits::MOST_ROWS;
use pm_vector::Ints;
use std::alloc::Global;

/// The number of rows that an adjacent pair needs in common beyond the leading equations: the rank less these and 2.
fn needed(rank: usize, equations: usize) -> usize
    ensures { result ≡ rank - equations - 2 }
{
    rank.saturating_sub(equations).saturating_sub(2)
}

/// The combination of a pair of the table that is kept apart by the row.
fn combined(
    alloc: Global,
    row: &Ints,
    rays: &Rays,
    i: usize,
    j: usize,
    values: &[i128],
    wide: bool,
) -> Result<Ints, StepFail>
    requires first { i < length rays.now.rows.items }
    requires second { j < length rays.now.rows.items }
    requires cols { HasCols (length row.now) rays.now.rows.items }
    requires stand { StandFor row.now rays.now.rows.items values.now }
    requires up { pos 0 <ℤ dot row.now (ray rays.now.rows.items i) }
    requires pair { IsTablePair rays.now.zeros i j }
    ensures combination { IfOk result (IsCombination row.now (ray rays.now.rows.items i)
        (ray rays.now.rows.items j)) }
    ensures wide { IfErr result (λ f. IsPairFailOf row.now rays.now.rows.items rays.now.zeros i j f) }
    ensures lost { wide ≡ true → IfErr result (λ f.
        IfStepLost f (IsLostTablePair row.now rays.now.rows.items rays.now.zeros i j)) }
{
    match combination_of(
        alloc,
        row,
        &rays.rows[i],
        values[i],
        &rays.rows[j],
        values[j],
        wide,
    ) {
        Ok(made) => Ok(made),
        Err(CombinationFail::First) => Err(StepFail::Product(i)),
        Err(CombinationFail::Second) => Err(StepFail::Product(j)),
        Err(CombinationFail::Column(column)) => Err(StepFail::Pair {
            first: i,
            second: j,
            column,
        }),
        Err(CombinationFail::NoMemory) => Err(StepFail::Memory),
    }
}

/// The combination of a pair of rays with what their zero sets have in common, if the pair is adjacent.
pub(crate) fn pair_ray(
    alloc: Global,
    row: &Ints,
    rays: &Rays,
    i: usize,
    j: usize,
    values: &[i128],
    front: usize,
    need: usize,
    both: &mut BitRow,
    wide: bool,
) -> Result<Option<Ray>, StepFail>
    requires first { i < length rays.now.rows.items }
    requires second { j < length rays.now.rows.items }
    requires as_many { length rays.now.rows.items ≡ length rays.now.zeros.rows }
    requires cols { HasCols (length row.now) rays.now.rows.items }
    requires stand { StandFor row.now rays.now.rows.items values.now }
    requires up { pos 0 <ℤ dot row.now (ray rays.now.rows.items i) }
    requires front { front < rays.now.zeros.row_len }
    requires both { length both.old ≡ rays.now.zeros.row_len }
    ensures both { length both.new ≡ length both.old }
    ensures none { IfOk result (λ o. IfNone o (IsNoPair rays.now.zeros i j need)) }
    ensures some { IfOk result (λ o.
        IfSome o (λ r. IsPairRay row.now rays.now.rows.items rays.now.zeros i j front r.row r.zeros)) }
    ensures wide { IfErr result (λ f. IsPairFailOf row.now rays.now.rows.items rays.now.zeros i j f) }
    ensures lost { wide ≡ true → IfErr result (λ f.
        IfStepLost f (IsLostTablePair row.now rays.now.rows.items rays.now.zeros i j)) }
{
    let first = rays.zeros.row(i);
    let second = rays.zeros.row(j);
    if rays.zeros.common_count(i, j) < need {
        return Ok(None);
    }
    first.meet_into(second, both);
    if rays.zeros.other_contains(both, i, j) {
        return Ok(None);
    }
    let made = combined(alloc, row, rays, i, j, values, wide)?;
    let mut zeros = BitRow::with_len(alloc, both.len())?;
    both.meet_into(both, &mut zeros);
    zeros.set(front);
    Ok(Some(Ray { row: made, zeros }))
}

/// The combinations of the adjacent pairs of a ray ahead with one of the near rays behind.
fn near_pairs(
    alloc: Global,
    cols: usize,
    equations: &[Ints],
    rows: &[Ints],
    front: usize,
    rank: usize,
    rays: &Rays,
    values: &[i128],
    need: usize,
    unions: &Unions,
    negatives: &[usize],
    wide: bool,
) -> Result<Rays, StepFail>
    requires equation_cols { HasCols cols equations.now }
    requires row_cols { HasCols cols rows.now }
    requires within { front < length rows.now }
    requires spanned { InSpan (equations.now ++ take front rows.now) (row_at rows.now front) }
    requires rank { IsRank (equations.now ++ take front rows.now) rank }
    requires table { IsRayTable cols equations.now rows.now front rays.now.rows.items rays.now.zeros.rows }
    requires old_len { rays.now.zeros.row_len ≡ length rows.now }
    requires stand { StandFor (row_at rows.now front) rays.now.rows.items values.now }
    requires few { length rays.now.rows.items ≤ MOST_ROWS }
    requires need { need ≡ rank - length equations.now - 2 }
    requires behind_len { length unions.now.behind ≡ rays.now.zeros.row_len }
    requires ahead { (k : ℕ) → k < length values.now → pos 0 <ℤ entry values.now k
        → IsSubset (zero_set rays.now.zeros.rows k) unions.now.ahead }
    requires behind { (k : ℕ) → k < length values.now → entry values.now k <ℤ pos 0
        → IsSubset (zero_set rays.now.zeros.rows k) unions.now.behind }
    requires negatives { AreNegativesLeft (IsPassed rays.now.zeros values.now unions.now.ahead need) values.now 0
        (length values.now) negatives.now }
    ensures row_len { IfOk result (λ r. r.zeros.row_len ≡ length rows.now) }
    ensures few { IfOk result (λ r. kept_count values.now + length r.rows.items ≤ MOST_ROWS) }
    ensures built { IfOk result (λ r. IsBuilt cols equations.now rows.now front rays.now.rows.items IsPair
        r.rows.items r.zeros.rows) }
    ensures wide { IfErr result (λ f. IsStepFail cols equations.now rows.now front rays.now.rows.items f) }
    ensures lost { wide ≡ true → IfErr result (λ f.
        IfStepLost f (IsLostSource rows.now front rays.now.rows.items)) }
{
    let mut both = BitRow::with_len(alloc, rows.len())?;
    let kept = count_kept(values);
    let mut made = Rays::new(alloc, rows.len());
    for i in 0..rays.rows.len() {
        if values[i] <= 0 {
            continue;
        }
        if rays.zeros.common_count_with(i, &unions.behind) < need {
            continue;
        }
        for k in 0..negatives.len() {
            let j = negatives[k];
            let ray = match pair_ray(
                alloc,
                &rows[front],
                rays,
                i,
                j,
                values,
                front,
                need,
                &mut both,
                wide,
            )? {
                Some(ray) => ray,
                None => continue,
            };
            made.add(ray)?;
            if kept + made.rows.len() > MOST_ROWS {
                return Err(too_many(alloc, cols, equations, rows, front, rays, values, made.rows)?);
            }
        }
    }
    Ok(made)
}

/// The combinations of all adjacent pairs, with their zero sets for the next front.
pub(crate) fn paired_rays(
    alloc: Global,
    cols: usize,
    equations: &[Ints],
    rows: &[Ints],
    front: usize,
    rank: usize,
    rays: &Rays,
    values: &[i128],
    wide: bool,
) -> Result<Rays, StepFail>
    requires equation_cols { HasCols cols equations.now }
    requires row_cols { HasCols cols rows.now }
    requires within { front < length rows.now }
    requires spanned { InSpan (equations.now ++ take front rows.now) (row_at rows.now front) }
    requires rank { IsRank (equations.now ++ take front rows.now) rank }
    requires table { IsRayTable cols equations.now rows.now front rays.now.rows.items rays.now.zeros.rows }
    requires old_len { rays.now.zeros.row_len ≡ length rows.now }
    requires stand { StandFor (row_at rows.now front) rays.now.rows.items values.now }
    requires few { length rays.now.rows.items ≤ MOST_ROWS }
    ensures row_len { IfOk result (λ r. r.zeros.row_len ≡ length rows.now) }
    ensures few { IfOk result (λ r. kept_count values.now + length r.rows.items ≤ MOST_ROWS) }
    ensures built { IfOk result (λ r. IsBuilt cols equations.now rows.now front rays.now.rows.items IsPair
        r.rows.items r.zeros.rows) }
    ensures wide { IfErr result (λ f. IsStepFail cols equations.now rows.now front rays.now.rows.items f) }
    ensures lost { wide ≡ true → IfErr result (λ f.
        IfStepLost f (IsLostSource rows.now front rays.now.rows.items)) }
{
    let need = needed(rank, equations.len());
    let unions = unions_of(alloc, &rays.zeros, values)?;
    let negatives = near_negatives(alloc, &rays.zeros, values, &unions.ahead, need)?;
    near_pairs(
        alloc, cols, equations, rows, front, rank, rays, values, need, &unions, &negatives, wide,
    )
}
