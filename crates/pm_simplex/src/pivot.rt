// One pivot of a dictionary of fractions.

ghost use Rattle.pm_vector.specs.Numbers.{InRangeRatio, Ratio};
ghost use Rattle.pm_vector.specs.Rows.{ratio_at};
ghost use Rattle.pm_fraction.specs.Arithmetic.{quotient_of};
ghost use Rattle.pm_fraction.specs.Fractions.{IsLowestTermsOf, IsTooWide};
ghost use Rattle.pm_fraction.specs.Matrices.{IsFraction};
ghost use Rattle.pm_programs.specs.Dictionaries.{IsNewElsewhere, IsNewHere, IsOppositeQuotient, IsPivoted, IsProductSum, IsWideElsewhere, IsWideHere, IsWideOutside, HasPlaces, AllFit, IsWidePlace, ProductSumIsWide, at, row_of};
ghost use Rattle.pm_simplex.specs.Fails.{IfWideAt, IfWidePlace};
ghost use Rattle.std.specs.Prelude.{All, IfErr, IfOk, IsErrOf, OnErr, OnOk, [], length, map, pos, slice_index_or, ◌<◌, ◌≡◌, ◌≢◌, ℕ};

use pm_fraction::{Fraction, NumError};
use std::alloc::{AllocError, AllocFailed, Global};

/// Why a row has no successor: an operation for the fraction at a place leaves the range, or there is no memory.
#[derive(Debug, Drop)]
pub(crate) enum RowFail {
    Wide(usize),
    Memory,
}

impl From<AllocError> for RowFail {
    ghost use Rattle.pm_simplex.specs.declared.pivot.RowFail.TheVariants.{Memory};

    ghost from_gives = { λ _ e. e ≡ Memory };

    fn from(_e: AllocError) -> RowFail {
        RowFail::Memory
    }
}

impl<T: Drop> From<AllocFailed<T>> for RowFail {
    ghost use Rattle.pm_simplex.specs.declared.pivot.RowFail.TheVariants.{Memory};

    ghost from_gives = { λ _ e. e ≡ Memory };

    fn from(_e: AllocFailed<T>) -> RowFail {
        RowFail::Memory
    }
}

/// e + f b
fn product_sum(e: Fraction, f: Fraction, b: Fraction) -> Result<Fraction, NumError>
    ensures ok { IfOk result (IsProductSum e f b) }
    ensures fits { IfOk result (λ r. InRangeRatio r) }
    ensures wide { OnErr result (ProductSumIsWide e f b) }
{
    let product = f.mul(b)?;
    e.add(product)
}

/// -(a/p)
fn opposite_quotient(a: Fraction, p: Fraction) -> Result<Fraction, NumError>
    requires { p.num ≢ pos 0 }
    ensures ok { IfOk result (IsOppositeQuotient a p) }
    ensures fits { IfOk result (λ r. InRangeRatio r) }
    ensures wide { OnErr result (IsTooWide (quotient_of a p)) }
{
    let quotient = a.div(p)?;
    Ok(quotient.neg())
}

/// The new fraction of the pivot row x at k.
fn new_here(x: &[Fraction], j: usize, k: usize) -> Result<Fraction, NumError>
    requires place { j < length x.now }
    requires within { k < length x.now }
    requires pivot { (ratio_at x.now j).num ≢ pos 0 }
    ensures ok { IfOk result (IsNewHere x.now j k) }
    ensures fits { IfOk result (λ r. InRangeRatio r) }
    ensures wide { OnErr result (IsWideHere x.now j k) }
{
    if k == j {
        Fraction::one().div(x[j])
    } else {
        opposite_quotient(x[k], x[j])
    }
}

/// The new fraction of another row y at k.
fn new_elsewhere(
    x: &[Fraction],
    y: &[Fraction],
    j: usize,
    k: usize,
    b: Fraction,
) -> Result<Fraction, NumError>
    requires place { j < length x.now }
    requires other_place { j < length y.now }
    requires within { k < length y.now }
    requires pivot { (ratio_at x.now j).num ≢ pos 0 }
    ensures ok { IfOk result (IsNewElsewhere x.now y.now j k b) }
    ensures fits { IfOk result (λ r. InRangeRatio r) }
    ensures wide { OnErr result (IsWideElsewhere x.now y.now j k b) }
{
    if k == j {
        y[j].div(x[j])
    } else {
        product_sum(y[k], y[j], b)
    }
}

/// The pivot row x after the pivot at its place j.
fn new_pivot_row(alloc: Global, x: &[Fraction], j: usize) -> Result<Vec<Fraction>, RowFail>
    requires place { j < length x.now }
    requires pivot { (ratio_at x.now j).num ≢ pos 0 }
    ensures count { IfOk result (λ v. length v.items ≡ length x.now) }
    ensures ok { IfOk result (λ v. (k : ℕ) → k < length x.now → IsNewHere x.now j k (ratio_at v.items k)) }
    ensures fits { IfOk result (λ v. (k : ℕ) → k < length x.now → InRangeRatio (ratio_at v.items k)) }
    ensures wide { IfErr result (λ f. IfWideAt f (λ k. (k < length x.now) × IsWideHere x.now j k)) }
{
    let mut new = Vec::new(alloc);
    for k in 0..x.len() {
        match new_here(x, j, k) {
            Ok(r) => new.push(r)?,
            Err(_) => return Err(RowFail::Wide(k)),
        }
    }
    Ok(new)
}

/// Another row y after the pivot at the place j of the row x, which becomes b.
fn new_other_row(
    alloc: Global,
    x: &[Fraction],
    y: &[Fraction],
    j: usize,
    b: &[Fraction],
) -> Result<Vec<Fraction>, RowFail>
    requires place { j < length x.now }
    requires pivot { (ratio_at x.now j).num ≢ pos 0 }
    requires cols { length y.now ≡ length x.now }
    requires new_cols { length b.now ≡ length x.now }
    ensures count { IfOk result (λ v. length v.items ≡ length x.now) }
    ensures ok { IfOk result (λ v. (k : ℕ) → k < length x.now
        → IsNewElsewhere x.now y.now j k (ratio_at b.now k) (ratio_at v.items k)) }
    ensures fits { IfOk result (λ v. (k : ℕ) → k < length x.now → InRangeRatio (ratio_at v.items k)) }
    ensures wide { IfErr result (λ f.
        IfWideAt f (λ k. (k < length x.now) × IsWideElsewhere x.now y.now j k (ratio_at b.now k))) }
{
    let mut new = Vec::new(alloc);
    for k in 0..y.len() {
        match new_elsewhere(x, y, j, k, b[k]) {
            Ok(r) => new.push(r)?,
            Err(_) => return Err(RowFail::Wide(k)),
        }
    }
    Ok(new)
}

/// Why a dictionary has no successor: an operation for the fraction in a row at a place leaves the range, or there is
/// no memory.
#[derive(Debug, Drop)]
pub(crate) enum PlaceFail {
    Wide { row: usize, place: usize },
    Memory,
}

impl From<AllocError> for PlaceFail {
    ghost use Rattle.pm_simplex.specs.declared.pivot.PlaceFail.TheVariants.{Memory};

    ghost from_gives = { λ _ e. e ≡ Memory };

    fn from(_e: AllocError) -> PlaceFail {
        PlaceFail::Memory
    }
}

impl<T: Drop> From<AllocFailed<T>> for PlaceFail {
    ghost use Rattle.pm_simplex.specs.declared.pivot.PlaceFail.TheVariants.{Memory};

    ghost from_gives = { λ _ e. e ≡ Memory };

    fn from(_e: AllocFailed<T>) -> PlaceFail {
        PlaceFail::Memory
    }
}

/// A copy of a row.
fn copy_of(alloc: Global, row: &[Fraction]) -> Result<Vec<Fraction>, AllocError>
    ensures { IfOk result (λ v. v.items ≡ row.now) }
{
    let mut copy = Vec::new(alloc);
    for i in 0..row.len() {
        copy.push(row[i])?;
    }
    Ok(copy)
}

/// Row i after the pivot at row l and place j, where the pivot row becomes b.
fn new_row(
    alloc: Global,
    rows: &[Vec<Fraction>],
    cols: usize,
    l: usize,
    j: usize,
    b: &[Fraction],
    i: usize,
) -> Result<Vec<Fraction>, PlaceFail>
    requires pivot_row { l < length rows.now }
    requires row { i < length rows.now }
    requires place { j < cols }
    requires shape { HasPlaces cols (map (λ r. r.items) rows.now) }
    requires pivot { (at (map (λ r. r.items) rows.now) l j).num ≢ pos 0 }
    requires new_shape { length b.now ≡ cols }
    requires new_here { (k : ℕ) → k < cols
        → IsNewHere (row_of (map (λ r. r.items) rows.now) l) j k (ratio_at b.now k) }
    requires new_fits { (k : ℕ) → k < cols → InRangeRatio (ratio_at b.now k) }
    ensures count { IfOk result (λ v. length v.items ≡ cols) }
    ensures here { IfOk result (λ v. i ≡ l → v.items ≡ b.now) }
    ensures elsewhere { IfOk result (λ v. ¬ (i ≡ l) → (k : ℕ) → k < cols
        → IsNewElsewhere (row_of (map (λ r. r.items) rows.now) l) (row_of
        (map (λ r. r.items) rows.now) i) j k (ratio_at b.now k) (ratio_at v.items k)) }
    ensures fits { IfOk result (λ v. (k : ℕ) → k < cols → InRangeRatio (ratio_at v.items k)) }
    ensures wide { IfErr result (λ f.
        IfWidePlace f (λ r k. (r ≡ i) × (k < cols) × IsWidePlace (map (λ r. r.items) rows.now) l j i k)) }
{
    if i == l {
        return Ok(copy_of(alloc, b)?);
    }
    match new_other_row(alloc, &rows[l], &rows[i], j, b) {
        Ok(row) => Ok(row),
        Err(RowFail::Wide(place)) => Err(PlaceFail::Wide { row: i, place }),
        Err(RowFail::Memory) => Err(PlaceFail::Memory),
    }
}

/// The pivot row l after the pivot at place j.
fn first_row(
    alloc: Global,
    rows: &[Vec<Fraction>],
    cols: usize,
    l: usize,
    j: usize,
) -> Result<Vec<Fraction>, PlaceFail>
    requires pivot_row { l < length rows.now }
    requires place { j < cols }
    requires shape { HasPlaces cols (map (λ r. r.items) rows.now) }
    requires pivot { (at (map (λ r. r.items) rows.now) l j).num ≢ pos 0 }
    ensures count { IfOk result (λ v. length v.items ≡ cols) }
    ensures here { IfOk result (λ v. (k : ℕ) → k < cols
        → IsNewHere (row_of (map (λ r. r.items) rows.now) l) j k (ratio_at v.items k)) }
    ensures fits { IfOk result (λ v. AllFit cols v.items) }
    ensures wide { IfErr result (λ f.
        IfWidePlace f (λ r k. (r ≡ l) × (k < cols) × IsWidePlace (map (λ r. r.items) rows.now) l j l k)) }
{
    match new_pivot_row(alloc, &rows[l], j) {
        Ok(row) => Ok(row),
        Err(RowFail::Wide(place)) => Err(PlaceFail::Wide { row: l, place }),
        Err(RowFail::Memory) => Err(PlaceFail::Memory),
    }
}

/// The rows after the pivot at row l and place j.
pub(crate) fn pivoted_rows(
    alloc: Global,
    rows: &[Vec<Fraction>],
    cols: usize,
    l: usize,
    j: usize,
) -> Result<Vec<Vec<Fraction>>, PlaceFail>
    requires pivot_row { l < length rows.now }
    requires place { j < cols }
    requires shape { HasPlaces cols (map (λ r. r.items) rows.now) }
    requires pivot { (at (map (λ r. r.items) rows.now) l j).num ≢ pos 0 }
    ensures count { IfOk result (λ v. length (map (λ r. r.items) v.items) ≡ length rows.now) }
    ensures shape { IfOk result (λ v. HasPlaces cols (map (λ r. r.items) v.items)) }
    ensures fits { IfOk result (λ v. (i : ℕ) → i < length rows.now
        → AllFit cols (row_of (map (λ r. r.items) v.items) i)) }
    ensures pivoted { IfOk result (λ v. IsPivoted (length rows.now) cols (map (λ r. r.items) rows.now) l j
        (map (λ r. r.items) v.items)) }
    ensures wide { IfErr result (λ f.
        IfWidePlace f (λ i k. (i < length rows.now) × (k < cols)
        × IsWidePlace (map (λ r. r.items) rows.now) l j i k)) }
{
    let new = first_row(alloc, rows, cols, l, j)?;
    let mut after = Vec::new(alloc);
    for i in 0..rows.len() {
        let row = new_row(alloc, rows, cols, l, j, &new, i)?;
        after.push(row)?;
    }
    Ok(after)
}
