// The auxiliary variable enters where a slack is negative.

ghost use Rattle.pm_vector.specs.Rows.{Row};
ghost use Rattle.pm_simplex.specs.Evidence.{IsShownBy};
ghost use Rattle.pm_simplex.specs.Fails.{IfWide};
ghost use Rattle.pm_simplex.specs.Running.{IsAbsorbing, IsArranged, IsState, IsWithoutHelp};
ghost use Rattle.std.specs.Prelude.{IfErr, IfOk, List, OnOk, false, ◌+◌, ◌≡◌};

use crate::dictionary::Dictionary;
use crate::fails::LpFail;
use crate::layout::Layout;
use crate::ratio_test::leaving;
use std::alloc::Global;

/// Makes the dictionary feasible: where a slack is negative, the auxiliary variable enters for the least one. The
/// answer is whether it did.
pub(crate) fn begin(alloc: Global, d: &mut Dictionary, y: Layout) -> Result<bool, LpFail>
    ghost system: { List Row }
    requires { IsAbsorbing y system d.old (y.slacks + y.residuals) }
    ensures state { OnOk result (IsState y system d.new (y.slacks + y.residuals + 1)) }
    ensures arranged { OnOk result (IsArranged y d.new) }
    ensures without { IfOk result (λ b. b ≡ false → IsWithoutHelp y d.new) }
    ensures wide { IfErr result (λ f. IfWide f (IsShownBy y system)) }
{
    match leaving(d, y, y.cols, false) {
        None => Ok(false),
        Some(least) => {
            if !d.entry(least, 0).is_negative() {
                return Ok(false);
            }
            d.pivot_or_evidence(alloc, least, y.cols)?;
            Ok(true)
        }
    }
}
