// An objective as a primitive whole row, and the fraction by which that is multiplied.

ghost use Rattle.pm_vector.specs.Numbers.{InRange};
ghost use Rattle.pm_vector.specs.Rows.{Stands, entry};
ghost use Rattle.pm_fraction.specs.Fractions.{ratio_of};
ghost use Rattle.pm_fraction.specs.FractionRows.{IsPrimitiveRowOf};
ghost use Rattle.pm_optima.specs.Objectives.{IsScaleOf};
ghost use Rattle.pm_types.specs.Forms.{HasPrimitiveRow};
ghost use Rattle.std.specs.Prelude.{IfOk, length, pos, ◌<◌, ◌≡◌, ◌≢◌};

use pm_fraction::{Fraction, RowFail, primitive_row};
use pm_vector::Ints;
use std::alloc::{AllocError, Global};

/// The primitive whole row of an objective, which is made within the range.
pub(crate) fn primitive_objective(alloc: Global, objective: &[Fraction]) -> Result<Ints, AllocError>
    requires { HasPrimitiveRow objective.now }
    ensures primitive { IfOk result (IsPrimitiveRowOf objective.now) }
    ensures stands { IfOk result (Stands objective.now) }
{
    match primitive_row(alloc, objective) {
        Ok(row) => Ok(row),
        Err(RowFail::Memory) => Err(AllocError),
        Err(RowFail::Wide { .. }) => unreachable!(),
    }
}

/// A whole number of the range as a fraction.
fn whole(n: i128) -> Fraction
    requires { InRange n }
    ensures { result ≡ ratio_of n (pos 1) }
{
    let Ok(fraction) = Fraction::from_whole(n) else {
        unreachable!()
    };
    fraction
}

/// The quotient of the entries of an objective and of its primitive row at a place, where these are not 0.
fn scale_at(objective: &[Fraction], row: &Ints, i: usize) -> Fraction
    requires primitive { IsPrimitiveRowOf objective.now row.now }
    requires stands { Stands objective.now row.now }
    requires stays { HasPrimitiveRow objective.now }
    requires within { i < length row.now }
    requires some { entry row.now i ≢ pos 0 }
    ensures { IsScaleOf objective.now row.now result }
{
    let Ok(scale) = objective[i].div(whole(row.get(i))) else {
        unreachable!()
    };
    scale
}

/// The positive fraction by which the primitive row of an objective is multiplied.
pub(crate) fn scale(objective: &[Fraction], row: &Ints) -> Fraction
    requires primitive { IsPrimitiveRowOf objective.now row.now }
    requires stands { Stands objective.now row.now }
    requires stays { HasPrimitiveRow objective.now }
    ensures { IsScaleOf objective.now row.now result }
{
    for i in 0..row.len() {
        if row.get(i) != 0 {
            return scale_at(objective, row, i);
        }
    }
    Fraction::one()
}
