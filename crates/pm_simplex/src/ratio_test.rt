// The ratio test.

ghost use Rattle.pm_vector.specs.Numbers.{Ratio};
ghost use Rattle.pm_vector.specs.Rows.{ratio_at};
ghost use Rattle.pm_vector.specs.Bases.{column};
ghost use Rattle.pm_simplex.specs.Comparisons.{HindersAt, IsKeyBelow, IsLeastOf, direction, IsRectangular, IsRowBelow, IsShaped, key_of, rows_of};
ghost use Rattle.pm_programs.specs.Dictionaries.{at, row_of};
ghost use Rattle.pm_simplex.specs.States.{columns_of, is_signed, key_columns, key_in};
ghost use Rattle.std.specs.Prelude.{IfNone, IfSome, IsTrue, false, ℕ, length, map, pos, ◌+◌, ◌<◌, ◌<ℤ◌, ◌*ℤ◌, ◌≡◌, ◌≢◌, ◌↔◌};

use crate::dictionary::Dictionary;
use crate::layout::Layout;
use crate::sizes::is_quotient_below;
use pm_fraction::Fraction;

/// What a row of a dictionary, whose own variable has the column p, says of the column c in the lexicographic order.
fn key_in(p: usize, others: &[usize], row: &[Fraction], c: usize) -> Fraction
    requires { length others.now ≡ length row.now }
    ensures { result ≡ key_in p others.now row.now c }
{
    if c == p {
        return Fraction::one();
    }
    for k in 0..others.len() {
        if others[k] == c {
            return if c == 0 { row[k] } else { row[k].neg() };
        }
    }
    Fraction::zero()
}

/// The fraction of a row at a place.
fn fraction_at(row: &[Fraction], k: usize) -> Fraction
    requires { k < length row.now }
    ensures value { result ≡ ratio_at row.now k }
    ensures positive { pos 0 <ℤ result.den }
{
    let f = row[k];
    let _ = f.den();
    f
}

impl Dictionary {
    /// The fraction in row i and place k.
    pub(crate) fn entry(&self, i: usize, k: usize) -> Fraction
        requires rectangular { IsRectangular self.now }
        requires row { i < length self.now.basis.items }
        requires place { k < length self.now.others.items }
        ensures value { result ≡ at (rows_of self.now) i k }
        ensures positive { pos 0 <ℤ result.den }
    {
        fraction_at(&self.rows[i], k)
    }

    /// What the row i says of the column c in the lexicographic order.
    pub(crate) fn key(&self, i: usize, c: usize) -> Fraction
        requires rectangular { IsRectangular self.now }
        requires row { i < length self.now.basis.items }
        ensures value { result ≡ key_of self.now i c }
        ensures positive { pos 0 <ℤ result.den }
    {
        let f = key_in(self.basis[i], &self.others, &self.rows[i], c);
        let _ = f.den();
        f
    }
}

/// Whether row i is before row l in the ratio test at place j.
fn is_before(d: &Dictionary, y: Layout, i: usize, l: usize, j: usize) -> bool
    requires shaped { IsShaped y d.now }
    requires row { i < length d.now.basis.items }
    requires other_row { l < length d.now.basis.items }
    requires place { j < length d.now.others.items }
    requires different { i ≢ l }
    requires signed { IsTrue (is_signed y (column d.now.basis.items i)) }
    requires other_signed { IsTrue (is_signed y (column d.now.basis.items l)) }
    requires hinders { (at (rows_of d.now) i j).num ≢ pos 0 }
    requires other_hinders { (at (rows_of d.now) l j).num ≢ pos 0 }
    ensures before { IsTrue result → IsRowBelow y d.now i l j }
    ensures after { result ≡ false → IsRowBelow y d.now l i j }
{
    let f = d.entry(i, j);
    let g = d.entry(l, j);
    for k in 0..y.slacks + 1 {
        let c = y.key_column(k);
        let a = d.key(i, c);
        let b = d.key(l, c);
        if is_quotient_below(a, f, b, g) {
            return true;
        }
        if is_quotient_below(b, g, a, f) {
            return false;
        }
    }
    false
}

/// Whether the variable of row i may not be negative, and falls as the variable at j enters.
fn hinders(d: &Dictionary, y: Layout, j: usize, up: bool, i: usize) -> bool
    requires rectangular { IsRectangular d.now }
    requires row { i < length d.now.basis.items }
    requires place { j < length d.now.others.items }
    ensures { IsTrue result ↔ HindersAt y d.now j up i }
{
    let f = d.entry(i, j);
    y.is_signed(d.basis[i])
        && (if up {
            f.is_negative()
        } else {
            f.neg().is_negative()
        })
}

/// The lesser of the least row so far and the next one.
fn lesser(d: &Dictionary, y: Layout, j: usize, up: bool, i: usize, least: usize) -> usize
    requires shaped { IsShaped y d.now }
    requires row { i < length d.now.basis.items }
    requires place { j < length d.now.others.items }
    requires so_far { IsLeastOf y d.now j up i least }
    ensures { IsLeastOf y d.now j up (i + 1) result }
{
    if !hinders(d, y, j, up, i) {
        return least;
    }
    if is_before(d, y, i, least, j) {
        i
    } else {
        least
    }
}

/// The first row that hinders the variable at j.
fn first_hindering(d: &Dictionary, y: Layout, j: usize, up: bool) -> Option<usize>
    requires shaped { IsShaped y d.now }
    requires place { j < length d.now.others.items }
    ensures within { IfSome result (λ l. l < length d.now.basis.items) }
    ensures some { IfSome result (λ l. HindersAt y d.now j up l
        × ((i : ℕ) → i < l → HindersAt y d.now j up i → ⊥)) }
    ensures none { IfNone result ((i : ℕ) → i < length d.now.basis.items → HindersAt y d.now j up i → ⊥) }
{
    for i in 0..d.basis.len() {
        if hinders(d, y, j, up, i) {
            return Some(i);
        }
    }
    None
}

/// The least row that hinders the variable at j, of which `first` is the first.
fn least_from(d: &Dictionary, y: Layout, j: usize, up: bool, first: usize) -> usize
    requires shaped { IsShaped y d.now }
    requires place { j < length d.now.others.items }
    requires within { first < length d.now.basis.items }
    requires so_far { IsLeastOf y d.now j up (first + 1) first }
    ensures { IsLeastOf y d.now j up (length d.now.basis.items) result }
{
    let mut least = first;
    for i in first + 1..d.basis.len() {
        least = lesser(d, y, j, up, i, least);
    }
    least
}

/// The row that the ratio test picks where the variable at j enters.
pub(crate) fn leaving(d: &Dictionary, y: Layout, j: usize, up: bool) -> Option<usize>
    requires shaped { IsShaped y d.now }
    requires place { j < length d.now.others.items }
    ensures least { IfSome result (IsLeastOf y d.now j up (length d.now.basis.items)) }
    ensures none { IfNone result ((i : ℕ) → i < length d.now.basis.items → HindersAt y d.now j up i → ⊥) }
{
    let first = first_hindering(d, y, j, up)?;
    Some(least_from(d, y, j, up, first))
}
