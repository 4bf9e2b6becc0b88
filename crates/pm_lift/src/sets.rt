// The sets of rows on which facet rows vanish.

ghost use Rattle.pm_vector.specs.Rows.{HasCols, dot as dot_of};
ghost use Rattle.pm_lift.specs.Refusals.{ArePair, IsRowsFail, IsWideOf};
ghost use Rattle.pm_lift.specs.ZeroSets.{AreLowerSets, lower_sets, places_from};
ghost use Rattle.pm_lift.specs.Lifting.{upwards};
ghost use Rattle.pm_lift.specs.Lost.{IfWideLift, RowsAreLost};
ghost use Rattle.std.specs.Prelude.{IfErr, IfOk, [], length, map, suc, true, unsigned_abs, ◌++◌, ◌+◌, ◌==◌, ◌<◌, ◌^◌, ◌∷◌, ◌≡◌, ◌≤◌};
ghost use Rattle.pm_limits.specs.Limits.{most_rows};

use crate::fails::LiftFail;
use pm_dd::facets_of;
use pm_geom::Evidence;
use pm_vector::{Ints, copies, dot, wide_dot};
use std::alloc::{AllocError, Global};

/// The refusal of two rows whose product leaves the range.
fn wide_rows(alloc: Global, facet: &Ints, row: &Ints) -> Result<LiftFail, AllocError>
    ensures { IfOk result (λ f. f ≡ LiftFail.Wide (Evidence.E4 facet.now row.now)) }
{
    Ok(LiftFail::Wide(Evidence::E4 {
        first: facet.copy(alloc)?,
        second: row.copy(alloc)?,
    }))
}

/// Whether a number is 0.
fn is_zero(k: i128) -> bool
    ensures { result ≡ (unsigned_abs k == 0) }
{
    k == 0
}

/// Whether the product of two rows of one length is 0, by wide numbers.
fn vanishes_exactly(facet: &Ints, row: &Ints) -> bool
    requires { length row.now ≡ length facet.now }
    ensures { result ≡ (unsigned_abs (dot_of facet.now row.now) == 0) }
{
    wide_dot(facet.as_slice(), row.as_slice()).is_zero()
}

/// Whether the product of two rows of one length is 0; with `wide`, however wide it is.
fn vanishes(alloc: Global, facet: &Ints, row: &Ints, wide: bool) -> Result<bool, LiftFail>
    requires { length row.now ≡ length facet.now }
    ensures value { IfOk result (λ b. b ≡ (unsigned_abs (dot_of facet.now row.now) == 0)) }
    ensures failed { IfErr result (IsWideOf (λ x y. (x ≡ facet.now) × (y ≡ row.now))) }
    ensures total { wide ≡ true → IfErr result (λ f. f ≡ LiftFail.Memory) }
{
    if let Ok(product) = dot(facet.as_slice(), row.as_slice()) {
        return Ok(is_zero(product));
    }
    if wide {
        return Ok(vanishes_exactly(facet, row));
    }
    Err(wide_rows(alloc, facet, row)?)
}

/// The places of the rows on which a facet row vanishes.
fn places(alloc: Global, facet: &Ints, rows: &[Ints], wide: bool) -> Result<Vec<u32>, LiftFail>
    requires cols { HasCols (length facet.now) rows.now }
    requires few_rows { length rows.now < 2 ^ 30 }
    ensures places { IfOk result (λ r. r.items ≡ places_from 0 facet.now rows.now) }
    ensures failed { IfErr result (IsWideOf (ArePair (facet.now ∷ []) rows.now)) }
    ensures total { wide ≡ true → IfErr result (λ f. f ≡ LiftFail.Memory) }
{
    let mut places = Vec::new(alloc);
    for (j, row) in rows.iter().enumerate() {
        let on = vanishes(alloc, facet, row, wide)?;
        if on {
            places.push(j as u32)?;
        }
    }
    Ok(places)
}

/// For each facet row whose last entry is positive the places of the rows on which it vanishes.
fn positive_sets(
    alloc: Global,
    cols: usize,
    facets: &[Ints],
    rows: &[Ints],
    wide: bool,
) -> Result<Vec<Vec<u32>>, LiftFail>
    requires facet_cols { HasCols (suc cols) facets.now }
    requires row_cols { HasCols (suc cols) rows.now }
    requires few_rows { length rows.now < 2 ^ 30 }
    ensures sets { IfOk result (λ v. map (λ s. s.items) v.items ≡ lower_sets cols facets.now rows.now) }
    ensures few { IfOk result (λ v. length v.items ≤ length facets.now) }
    ensures failed { IfErr result (IsWideOf (ArePair facets.now rows.now)) }
    ensures total { wide ≡ true → IfErr result (λ f. f ≡ LiftFail.Memory) }
{
    let mut sets = Vec::new(alloc);
    for facet in facets {
        if facet.get(cols) > 0 {
            sets.push(places(alloc, facet, rows, wide)?)?;
        }
    }
    Ok(sets)
}

/// The rows, and last the row upwards.
fn with_upwards(alloc: Global, cols: usize, rows: &[Ints]) -> Result<Vec<Ints>, AllocError>
    requires { cols < 2 ^ 30 }
    ensures { IfOk result (λ v. v.items ≡ rows.now ++ upwards cols ∷ []) }
{
    let mut entries = vec![in alloc; 0i128; cols + 1]?;
    entries[cols] = 1;
    let mut made = copies(alloc, rows)?;
    made.push(Ints::from_vec(entries))?;
    Ok(made)
}

/// The sets of the rows, of one entry more than `cols`, on which a facet row of their cone with the row upwards
/// vanishes, for each facet row with a positive last entry; in lexicographic order. With `wide` by wide numbers where
/// those of the range do not suffice.
pub(crate) fn lower_cells(
    alloc: Global,
    cols: usize,
    rows: &[Ints],
    wide: bool,
) -> Result<Vec<Vec<u32>>, LiftFail>
    requires cols { HasCols (suc cols) rows.now }
    requires few_rows { length rows.now < 2 ^ 30 }
    requires few_columns { cols < 2 ^ 30 }
    ensures sets { IfOk result (λ v. AreLowerSets cols rows.now (map (λ s. s.items) v.items)) }
    ensures few { IfOk result (λ v. length v.items ≤ most_rows) }
    ensures failed { IfErr result (IsRowsFail cols rows.now) }
    ensures lost { wide ≡ true → IfErr result (λ f. IfWideLift f (RowsAreLost cols rows.now)) }
{
    let all = with_upwards(alloc, cols, rows)?;
    let lines = Vec::new(alloc);
    let found = facets_of(alloc, cols + 1, &all, &lines, wide)?;
    let mut sets = positive_sets(alloc, cols, &found.facets, rows, wide)?;
    sets.sort()?;
    Ok(sets)
}
