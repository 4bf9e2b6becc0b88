// The combination of two rows.

ghost use Rattle.pm_vector.specs.Numbers.{InRange};
ghost use Rattle.pm_vector.specs.Rows.{difference, entry, opposite};
ghost use Rattle.pm_vector.specs.Differences.{DifferenceStays, EntryStays, IsFirstWide, IsSmall};
ghost use Rattle.std.specs.Prelude.{All, IfNone, IfOk, IfSome, IsTrue, OnErr, OnOk, length, ◌*ℤ◌, ◌-ℤ◌, ◌<◌, ◌≡◌, ◌↔◌};

use crate::exact::is_small;
use crate::{Wide, minus, times};

/// p x - q y.
fn difference_of_products(p: i128, x: i128, q: i128, y: i128) -> Result<i128, Wide>
    ensures value { IfOk result (λ r. r ≡ p *ℤ x -ℤ q *ℤ y) }
    ensures in_range { IfOk result InRange }
    ensures stays { OnOk result (EntryStays p x q y) }
    ensures wide { OnErr result (EntryStays p x q y → ⊥) }
{
    let first = times(p, x)?;
    let second = times(q, y)?;
    minus(first, second)
}

/// The entry of p v - q w at a place.
fn difference_at(p: i128, v: &[i128], q: i128, w: &[i128], i: usize) -> Result<i128, Wide>
    requires in_v { i < length v.now }
    requires in_w { i < length w.now }
    ensures value { IfOk result (λ r. r ≡ p *ℤ entry v.now i -ℤ q *ℤ entry w.now i) }
    ensures in_range { IfOk result InRange }
    ensures stays { OnOk result (EntryStays p (entry v.now i) q (entry w.now i)) }
    ensures wide { OnErr result (EntryStays p (entry v.now i) q (entry w.now i) → ⊥) }
{
    difference_of_products(p, v[i], q, w[i])
}

/// The first place at which a product or the difference of p v - q w is outside of the range.
pub fn first_wide_place(p: i128, v: &[i128], q: i128, w: &[i128]) -> Option<usize>
    requires { length v.now ≡ length w.now }
    ensures none { IfNone result (DifferenceStays p v.now q w.now) }
    ensures some { IfSome result (IsFirstWide p v.now q w.now) }
{
    for i in 0..v.len() {
        if difference_at(p, v, q, w, i).is_err() {
            return Some(i);
        }
    }
    None
}

/// Whether each entry is small.
fn all_small(entries: &[i128]) -> bool
    ensures { IsTrue result ↔ All IsSmall entries.now }
{
    entries.iter().all(|x| is_small(*x))
}

/// Whether the factors and all entries are so small that p v - q w stays in the range.
fn are_small(p: i128, v: &[i128], q: i128, w: &[i128]) -> bool
    ensures { IsTrue result → DifferenceStays p v.now q w.now }
{
    is_small(p) && is_small(q) && all_small(v) && all_small(w)
}

/// Whether the products and the differences of p v - q w stay in the range.
pub(crate) fn difference_stays(p: i128, v: &[i128], q: i128, w: &[i128]) -> bool
    requires { length v.now ≡ length w.now }
    ensures { IsTrue result ↔ DifferenceStays p v.now q w.now }
{
    are_small(p, v, q, w) || first_wide_place(p, v, q, w).is_none()
}

/// v becomes p v - q w.
pub(crate) fn write_differences(p: i128, v: &mut [i128], q: i128, w: &[i128])
    requires same_length { length v.old ≡ length w.now }
    requires stays { DifferenceStays p v.old q w.now }
    ensures value { v.new ≡ difference p v.old q w.now }
    ensures in_range { All InRange v.new }
{
    for i in 0..v.len() {
        v[i] = p * v[i] - q * w[i];
    }
}

/// v becomes -v.
pub(crate) fn write_opposite(v: &mut [i128])
    requires { All InRange v.old }
    ensures value { v.new ≡ opposite v.old }
    ensures in_range { All InRange v.new }
{
    for x in v.iter_mut() {
        *x = -*x;
    }
}
