// Residuals leave the basis for free coordinates.

ghost use Rattle.pm_vector.specs.Rows.{Row};
ghost use Rattle.pm_vector.specs.Bases.{column};
ghost use Rattle.pm_programs.specs.Dictionaries.{at};
ghost use Rattle.pm_simplex.specs.Comparisons.{IsRectangular, rows_of};
ghost use Rattle.pm_simplex.specs.Evidence.{IsShownBy};
ghost use Rattle.pm_simplex.specs.Fails.{IfWide};
ghost use Rattle.pm_simplex.specs.Running.{IsAbsorbing, IsContradiction, IsFreeColumn};
ghost use Rattle.std.specs.Prelude.{IfErr, IfNone, IfOk, IfSome, List, MatchOption, false, length, pos, true, ◌+◌, ◌<◌, ◌≡◌, ◌≢◌, ◌≤◌, ℕ};

use crate::dictionary::Dictionary;
use crate::fails::LpFail;
use crate::layout::Layout;
use std::alloc::Global;

/// The place of a free coordinate on which row i depends.
fn free_place(d: &Dictionary, y: Layout, i: usize) -> Option<usize>
    requires rectangular { IsRectangular d.now }
    requires row { i < length d.now.basis.items }
    ensures within { IfSome result (λ j. j < length d.now.others.items) }
    ensures free { IfSome result (λ j. IsFreeColumn y (column d.now.others.items j)) }
    ensures depends { IfSome result (λ j. (at (rows_of d.now) i j).num ≢ pos 0) }
    ensures none { IfNone result ((j : ℕ) → j < length d.now.others.items
        → IsFreeColumn y (column d.now.others.items j) → (at (rows_of d.now) i j).num ≡ pos 0) }
{
    for j in 0..d.others.len() {
        let c = d.others[j];
        if 0 < c && c < y.cols && !d.entry(i, j).is_zero() {
            return Some(j);
        }
    }
    None
}

/// The residual of row n leaves for a free coordinate, or depends on residuals alone. The answer is whether it does
/// not, but is a constant other than 0.
fn absorb_row(alloc: Global, d: &mut Dictionary, y: Layout, n: usize) -> Result<bool, LpFail>
    ghost system: { List Row }
    requires absorbing { IsAbsorbing y system d.old n }
    requires from { y.slacks ≤ n }
    requires within { n < y.slacks + y.residuals }
    ensures absorbed { IfOk result (λ b. b ≡ false → IsAbsorbing y system d.new (n + 1)) }
    ensures contradiction { IfOk result (λ b. b ≡ true → IsContradiction y system d.new n) }
    ensures wide { IfErr result (λ f. IfWide f (IsShownBy y system)) }
{
    match free_place(d, y, n) {
        Some(j) => {
            d.pivot_or_evidence(alloc, n, j)?;
            Ok(false)
        }
        None => Ok(!d.entry(n, 0).is_zero()),
    }
}

/// Each residual leaves for a free coordinate, or depends on residuals alone; else the answer is the row of one that
/// is a constant other than 0.
pub(crate) fn absorb(alloc: Global, d: &mut Dictionary, y: Layout) -> Result<Option<usize>, LpFail>
    ghost system: { List Row }
    requires { IsAbsorbing y system d.old y.slacks }
    ensures absorbed { IfOk result (λ o. MatchOption o (IsAbsorbing y system d.new (y.slacks + y.residuals))
        (IsContradiction y system d.new)) }
    ensures wide { IfErr result (λ f. IfWide f (IsShownBy y system)) }
{
    for n in y.slacks..y.slacks + y.residuals {
        if absorb_row(alloc, d, y, n)? {
            return Ok(Some(n));
        }
    }
    Ok(None)
}
