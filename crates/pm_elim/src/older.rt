// The older basis rows are reduced by a new one.

ghost use Rattle.pm_vector.specs.Rows.{HasCols, entry};
ghost use Rattle.pm_vector.specs.Bases.{row_at};
ghost use Rattle.pm_vector.specs.Rounds.{AllReducedOnce, AllStay};
ghost use Rattle.pm_vector.specs.Steps.{StepIsWide};
ghost use Rattle.std.specs.Prelude.{IfNone, IfSome, length, pos, vec_len, ◌<ℤ◌, ◌<◌, ◌≡◌};

use crate::step::{reduce_once, wide_column};
use pm_vector::Ints;

/// The older row whose step leaves the range, and a column where it does.
#[derive(Drop)]
pub(crate) struct OlderAt {
    pub place: usize,
    pub column: usize,
}

/// The first of the rows whose step by a new row leaves the range.
pub(crate) fn wide_older(rows: &[Ints], new: &Ints, pivot: usize) -> Option<OlderAt>
    requires cols { HasCols (length new.now) rows.now }
    requires within { pivot < length new.now }
    requires positive { pos 0 <ℤ entry new.now pivot }
    ensures place { IfSome result (λ w. w.place < length rows.now) }
    ensures column { IfSome result (λ w. w.column < length new.now) }
    ensures wide { IfSome result (λ w. StepIsWide (row_at rows.now w.place) new.now pivot w.column) }
    ensures stays { IfNone result (AllStay rows.now new.now pivot) }
{
    for i in 0..rows.len() {
        if let Some(column) = wide_column(&rows[i], new, pivot) {
            return Some(OlderAt { place: i, column });
        }
    }
    None
}

/// Reduces each row of a slice by a new row.
fn reduce_each(rows: &mut [Ints], new: &Ints, pivot: usize)
    requires cols { HasCols (length new.now) rows.old }
    requires within { pivot < length new.now }
    requires positive { pos 0 <ℤ entry new.now pivot }
    requires stays { AllStay rows.old new.now pivot }
    ensures { AllReducedOnce rows.old new.now pivot rows.new }
{
    for place in 0..rows.len() {
        let Ok(()) = reduce_once(&mut rows[place], new, pivot) else {
            unreachable!()
        };
    }
}

/// Reduces each of the rows by a new row.
pub(crate) fn reduce_older(rows: &mut Vec<Ints>, new: &Ints, pivot: usize)
    requires cols { HasCols (length new.now) rows.old.items }
    requires within { pivot < length new.now }
    requires positive { pos 0 <ℤ entry new.now pivot }
    requires stays { AllStay rows.old.items new.now pivot }
    ensures reduced { AllReducedOnce rows.old.items new.now pivot rows.new.items }
    ensures count { vec_len rows.new ≡ vec_len rows.old }
{
    reduce_each(rows, new, pivot);
}
