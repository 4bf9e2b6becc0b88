// On which inequalities rows vanish, as rows of bits; and which rows are kept by them.

ghost use Rattle.pm_vector.specs.Rows.{HasCols, dot as dot_of};
ghost use Rattle.pm_bits.specs.Sets.{IsSubset, has};
ghost use Rattle.pm_dd.specs.Tables.{IsZeroSet, zero_set};
ghost use Rattle.pm_incidence.specs.Short.{IsShort};
ghost use Rattle.pm_incidence.specs.Thinning.{AreKept, AreZeroSets, IsKeptSet, IsProductFail, IsRanged, MarkFull};
ghost use Rattle.std.specs.Prelude.{All, IfErr, IfOk, IsTrue, [], get_or, false, length, pos, true, ℕ, ◌<◌, ◌∷◌, ◌≡◌, ◌≤◌, ◌↔◌};

use crate::fails::ThinFail;
use crate::short::{are_both_short, short_dot};
use pm_bits::{BitRow, BitTable};
use pm_geom::Evidence;
use pm_vector::{Ints, dot, wide_dot};
use std::alloc::{AllocError, Global};

// The refusal of two rows whose product leaves the range.
fn wide_product(alloc: Global, first: &Ints, second: &Ints) -> Result<ThinFail, AllocError>
    ensures { IfOk result (λ f. f ≡ ThinFail.Wide (Evidence.E4 first.now second.now)) }
{
    Ok(ThinFail::Wide(Evidence::E4 {
        first: first.copy(alloc)?,
        second: second.copy(alloc)?,
    }))
}

/// Whether a row vanishes on an inequality; with `wide`, however wide their product is.
fn vanishes(alloc: Global, row: &Ints, cut: &Ints, wide: bool) -> Result<bool, ThinFail>
    requires { length cut.now ≡ length row.now }
    ensures value { IfOk result (λ b. IsTrue b ↔ (dot_of cut.now row.now ≡ pos 0)) }
    ensures failed { IfErr result (IsProductFail (row.now ∷ []) (cut.now ∷ [])) }
    ensures ranged { IfErr result IsRanged }
    ensures total { wide ≡ true → IfErr result (λ f. f ≡ ThinFail.Memory) }
{
    if let Ok(product) = dot(cut.as_slice(), row.as_slice()) {
        return Ok(product == 0);
    }
    if wide {
        return Ok(wide_dot(cut.as_slice(), row.as_slice()).is_zero());
    }
    Err(wide_product(alloc, row, cut)?)
}

/// The set of the inequalities on which a row vanishes.
fn zero_row(alloc: Global, row: &Ints, cuts: &[Ints], wide: bool) -> Result<BitRow, ThinFail>
    requires cols { HasCols (length row.now) cuts.now }
    ensures zeros { IfOk result (IsZeroSet cuts.now (length cuts.now) row.now) }
    ensures failed { IfErr result (IsProductFail (row.now ∷ []) cuts.now) }
    ensures ranged { IfErr result IsRanged }
    ensures total { wide ≡ true → IfErr result (λ f. f ≡ ThinFail.Memory) }
{
    let mut zeros = BitRow::with_len(alloc, cuts.len())?;
    for (p, cut) in cuts.iter().enumerate() {
        let on = vanishes(alloc, row, cut, wide)?;
        if on {
            zeros.set(p);
        }
    }
    Ok(zeros)
}

/// The set of the inequalities on which a row vanishes, of short rows.
fn short_zero_row(alloc: Global, row: &Ints, cuts: &[Ints]) -> Result<BitRow, AllocError>
    requires cols { HasCols (length row.now) cuts.now }
    requires row { IsShort row.now }
    requires cuts { All IsShort cuts.now }
    ensures { IfOk result (IsZeroSet cuts.now (length cuts.now) row.now) }
{
    let mut zeros = BitRow::with_len(alloc, cuts.len())?;
    for (p, cut) in cuts.iter().enumerate() {
        if short_dot(cut.as_slice(), row.as_slice()) == 0 {
            zeros.set(p);
        }
    }
    Ok(zeros)
}

/// The set of the inequalities on which a row vanishes, by the quick product where the rows are known to be short.
fn zero_row_by(
    alloc: Global,
    row: &Ints,
    cuts: &[Ints],
    short: bool,
    wide: bool,
) -> Result<BitRow, ThinFail>
    requires cols { HasCols (length row.now) cuts.now }
    requires short { IsTrue short → IsShort row.now × All IsShort cuts.now }
    ensures zeros { IfOk result (IsZeroSet cuts.now (length cuts.now) row.now) }
    ensures failed { IfErr result (IsProductFail (row.now ∷ []) cuts.now) }
    ensures ranged { IfErr result IsRanged }
    ensures total { wide ≡ true → IfErr result (λ f. f ≡ ThinFail.Memory) }
{
    if short {
        return Ok(short_zero_row(alloc, row, cuts)?);
    }
    zero_row(alloc, row, cuts, wide)
}

/// For each row the set of the inequalities on which it vanishes. With `wide` it finds them also where a product
/// leaves the range, and fails for want of memory alone.
pub(crate) fn zero_rows(
    alloc: Global,
    cols: usize,
    rows: &[Ints],
    cuts: &[Ints],
    wide: bool,
) -> Result<BitTable, ThinFail>
    requires row_cols { HasCols cols rows.now }
    requires cut_cols { HasCols cols cuts.now }
    ensures len { IfOk result (λ t. t.row_len ≡ length cuts.now) }
    ensures zeros { IfOk result (λ t. AreZeroSets cuts.now rows.now t.rows) }
    ensures failed { IfErr result (IsProductFail rows.now cuts.now) }
    ensures ranged { IfErr result IsRanged }
    ensures total { wide ≡ true → IfErr result (λ f. f ≡ ThinFail.Memory) }
{
    let short = are_both_short(rows, cuts);
    let mut zeros = BitTable::new(alloc, cuts.len());
    for row in rows {
        let Ok(()) = zeros.push(zero_row_by(alloc, row, cuts, short, wide)?) else {
            return Err(ThinFail::Memory);
        };
    }
    Ok(zeros)
}

/// The set of all numbers below a length.
fn full_row(alloc: Global, len: usize) -> Result<BitRow, AllocError>
    ensures len { IfOk result (λ row. length row ≡ len) }
    ensures full { IfOk result (λ row. (j : ℕ) → j < len → IsTrue (has row j)) }
{
    let mut row = BitRow::with_len(alloc, len)?;
    for j in 0..len {
        row.set(j);
    }
    Ok(row)
}

/// Which sets have all inequalities.
pub(crate) fn full_marks(alloc: Global, zeros: &BitTable) -> Result<Vec<bool>, AllocError>
    ensures { IfOk result (λ m. MarkFull zeros.now.rows m.items) }
{
    let full = full_row(alloc, zeros.row_len())?;
    let mut marks = Vec::new(alloc);
    for k in 0..zeros.len() {
        marks.push(zeros.row(k).contains(&full))?;
    }
    Ok(marks)
}

/// Whether the set at j has all that the set at i has, and has more or stands before it.
fn beats(zeros: &BitTable, i: usize, j: usize) -> bool
    requires i { i < length zeros.now.rows }
    requires j { j < length zeros.now.rows }
    ensures { IsTrue result ↔ (IsSubset (zero_set zeros.now.rows i) (zero_set zeros.now.rows j)
        × ¬ ((i ≤ j) × IsSubset (zero_set zeros.now.rows j) (zero_set zeros.now.rows i))) }
{
    let row = zeros.row(i);
    let other = zeros.row(j);
    other.contains(row) && !(i <= j && row.contains(other))
}

/// Whether the set at a place is kept.
fn is_kept(zeros: &BitTable, marks: &[bool], i: usize) -> bool
    requires i { i < length zeros.now.rows }
    requires marks { length marks.now ≡ length zeros.now.rows }
    ensures { IsTrue result ↔ IsKeptSet zeros.now.rows marks.now i }
{
    if marks[i] {
        return false;
    }
    for j in 0..zeros.len() {
        if !marks[j] && beats(zeros, i, j) {
            return false;
        }
    }
    true
}

/// The places of the sets that are kept: of those without a mark the greatest, and of equal ones the first.
pub(crate) fn kept_places(
    alloc: Global,
    zeros: &BitTable,
    marks: &[bool],
) -> Result<Vec<usize>, AllocError>
    requires marks { length marks.now ≡ length zeros.now.rows }
    ensures kept { IfOk result (λ v. AreKept zeros.now.rows marks.now v.items) }
    ensures few { IfOk result (λ v. length v.items ≤ length zeros.now.rows) }
{
    let mut places = Vec::new(alloc);
    for i in 0..zeros.len() {
        if is_kept(zeros, marks, i) {
            places.push(i)?;
        }
    }
    Ok(places)
}
