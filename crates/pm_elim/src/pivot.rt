// The pivot of a row, and the row made primitive with a positive pivot.

ghost use Rattle.pm_vector.specs.Rows.{IsZero, entry};
ghost use Rattle.pm_vector.specs.Steps.{IsPivotRow};
ghost use Rattle.std.specs.Prelude.{IfNone, IfSome, IsTrue, length, pos, ◌<ℤ◌, ◌<◌, ◌≡◌, ◌↔◌, ℕ};

use crate::step::is_zero_at;
use pm_vector::{Ints, negate, primitive};

/// The first column in which a row is not 0.
pub(crate) fn pivot_of(row: &Ints) -> Option<usize>
    ensures within { IfSome result (λ c. c < length row.now) }
    ensures not_zero { IfSome result (λ c. ¬ (entry row.now c ≡ pos 0)) }
    ensures before { IfSome result (λ c. (d : ℕ) → d < c → entry row.now d ≡ pos 0) }
    ensures zero { IfNone result (IsZero row.now) }
{
    for i in 0..row.len() {
        if !is_zero_at(row, i) {
            return Some(i);
        }
    }
    None
}

/// Whether a row is negative in a column.
fn is_negative_at(row: &Ints, i: usize) -> bool
    requires { i < length row.now }
    ensures { IsTrue result ↔ (entry row.now i <ℤ pos 0) }
{
    row.get(i) < 0
}

/// A row made primitive, with a positive entry in its pivot column.
pub(crate) fn pivot_row(row: Ints, pivot: usize) -> Ints
    requires within { pivot < length row }
    requires not_zero { ¬ (entry row pivot ≡ pos 0) }
    requires before { (d : ℕ) → d < pivot → entry row d ≡ pos 0 }
    ensures { IsPivotRow row pivot result }
{
    let mut made = row;
    if is_negative_at(&made, pivot) {
        negate(&mut made);
    }
    primitive(&mut made);
    made
}
