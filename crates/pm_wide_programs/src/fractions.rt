// Fractions of wide numbers.

ghost use Rattle.pm_dual.specs.Quotients.{AreQuotients};
ghost use Rattle.pm_fraction.specs.Fractions.{IsLowestTermsOf, ratio_of};
ghost use Rattle.pm_vector.specs.WideInts.{value_of};
ghost use Rattle.pm_wide_programs.specs.Values.{values};
ghost use Rattle.std.specs.Prelude.{IfOk, IfSome, pos, ◌<ℤ◌, ◌≡◌};

use crate::wide_row::size_of;
use pm_fraction::Fraction;
use pm_vector::WideInt;
use std::alloc::{AllocError, Global};

/// n over d in lowest terms. None where these leave the range of 128 bits, or d is not positive.
pub(crate) fn quotient(n: WideInt, d: WideInt) -> Option<Fraction>
    ensures positive { IfSome result (λ _. pos 0 <ℤ value_of d) }
    ensures lowest { IfSome result (IsLowestTermsOf (ratio_of (value_of n) (value_of d))) }
{
    if !d.is_positive() {
        return None;
    }
    let common = n.gcd_with(size_of(d));
    let num = n.divided_by(common).narrow()?;
    let den = d.divided_by(common).narrow()?;
    match Fraction::new(num, den) {
        Ok(f) => Some(f),
        Err(_) => None,
    }
}

/// The entries of x over d. None where a quotient in lowest terms leaves the range of 128 bits.
pub(crate) fn quotients(
    alloc: Global,
    x: &[WideInt],
    d: WideInt,
) -> Result<Option<Vec<Fraction>>, AllocError>
    ensures { IfOk result (λ o. IfSome o (λ v. AreQuotients (values x.now) (value_of d) v.items)) }
{
    let mut row = Vec::new(alloc);
    for i in 0..x.len() {
        match quotient(x[i], d) {
            Some(f) => row.push(f)?,
            None => return Ok(None),
        }
    }
    Ok(Some(row))
}
