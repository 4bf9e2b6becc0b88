// The reduction of a row by an echelon basis, by wide numbers on the way.

ghost use Rattle.pm_vector.specs.Rows.{HasCols, entry};
ghost use Rattle.pm_vector.specs.Bases.{column};
ghost use Rattle.pm_elim.specs.Lost.{IfLost, IsLostOnNext};
ghost use Rattle.pm_vector.specs.Steps.{ReducedBy, SameDirectionModulo};
ghost use Rattle.std.specs.Prelude.{IfErr, IfOk, length, pos, ◌<◌, ◌≡◌, ℕ};

use crate::basis::Echelon;
use crate::wide_rounds::{WideFail, reduced_in_turn};
use pm_vector::Ints;
use std::alloc::Global;

/// A row reduced by all rows of an echelon basis: it is 0 in the pivot columns, and keeps its direction modulo their
/// span.
pub fn wide_reduced(alloc: Global, basis: &Echelon, row: &Ints) -> Result<Ints, WideFail>
    requires { HasCols (length row.now) basis.now.rows }
    ensures reduced { IfOk result (λ r. ReducedBy basis.now.rows basis.now.pivots row.now r) }
    ensures zero { IfOk result (λ r. (i : ℕ) → i < length basis.now.rows
        → entry r (column basis.now.pivots i) ≡ pos 0) }
    ensures direction { IfOk result (λ r. SameDirectionModulo basis.now.rows row.now r) }
    ensures lost { IfErr result (λ f.
        IfLost f (IsLostOnNext basis.now.rows basis.now.pivots row.now)) }
{
    let rest = reduced_in_turn(alloc, &basis.rows, &basis.pivots, row)?;
    Ok(rest)
}
