// Lifted rows by wide numbers on the way.

ghost use Rattle.pm_vector.specs.Divisors.{IsPrimitiveOf};
ghost use Rattle.pm_vector.specs.Rows.{times as times_of};
ghost use Rattle.pm_vector.specs.WideInts.{IsFactor, value_of};
ghost use Rattle.pm_elim.specs.Lost.{PrimitiveIsLost};
ghost use Rattle.pm_lift.specs.Lifting.{lifted, raised};
ghost use Rattle.std.specs.Prelude.{IfNone, IfOk, IfSome, OnOk, [], length, pos, replicate, ◌++◌, ◌<ℤ◌, ◌<◌, ◌∷◌, ◌≡◌};

use crate::products::without_first;
use pm_fraction::Fraction;
use pm_vector::{Ints, WideInt, primitive_combination, wide_dot};
use std::alloc::{AllocError, Global};

/// The row of so many zeros, and then 1.
fn zeros_and_one(alloc: Global, zeros: usize) -> Result<Ints, AllocError>
    ensures { IfOk result (λ r. r ≡ replicate zeros (pos 0) ++ pos 1 ∷ []) }
{
    let mut row = Ints::from_vec(vec![in alloc; 0i128; zeros]?);
    row.push(1)?;
    Ok(row)
}

/// The primitive row of p times a row, and then a last entry. `None` where it leaves the range.
fn wide_row(alloc: Global, row: &Ints, p: i128, last: WideInt) -> Result<Option<Ints>, AllocError>
    requires { IsFactor (value_of last) }
    ensures primitive { IfOk result (λ o.
        IfSome o (IsPrimitiveOf (times_of p row.now ++ value_of last ∷ []))) }
    ensures lost { IfOk result (λ o.
        IfNone o (PrimitiveIsLost (times_of p row.now ++ value_of last ∷ []))) }
{
    let up = zeros_and_one(alloc, row.len())?;
    let mut longer = row.copy(alloc)?;
    longer.push(0)?;
    primitive_combination(alloc, WideInt::of(p), &longer, last.opposite(), &up)
}

/// The primitive row of the lifted row of a row with a height. `None` where it leaves the range.
pub(crate) fn wide_lifted(
    alloc: Global,
    row: &Ints,
    height: Fraction,
) -> Result<Option<Ints>, AllocError>
    requires { 0 < length row.now }
    ensures lifted { IfOk result (λ o. IfSome o (IsPrimitiveOf (lifted row.now height))) }
    ensures lost { IfOk result (λ o. IfNone o (PrimitiveIsLost (lifted row.now height))) }
    ensures denominator { OnOk result (pos 0 <ℤ height.den) }
{
    let last = WideInt::product(row.get(0), height.num());
    wide_row(alloc, row, height.den(), last)
}

/// The primitive row of a row that is raised to the paraboloid. `None` where it leaves the range.
pub(crate) fn wide_raised(alloc: Global, row: &Ints) -> Result<Option<Ints>, AllocError>
    requires { 0 < length row.now }
    ensures raised { IfOk result (λ o. IfSome o (IsPrimitiveOf (raised row.now))) }
    ensures lost { IfOk result (λ o. IfNone o (PrimitiveIsLost (raised row.now))) }
{
    let rest = without_first(alloc, row)?;
    let last = wide_dot(rest.as_slice(), rest.as_slice());
    wide_row(alloc, row, row.get(0), last)
}
