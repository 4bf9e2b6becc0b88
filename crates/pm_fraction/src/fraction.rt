//! The number p/q.

ghost use Rattle.std.specs.Prelude.{◌≡◌, ◌≢◌, ◌⊎◌, ◌↔◌, ◌<◌, ℤ, pos, ◌*ℤ◌, ◌<ℤ◌, ◌^◌, IsTrue, IsOk, IfOk, IfErr, OnOk, IsErrOf};
ghost use Rattle.std.specs.Ordering.{int_cmp};
ghost use Rattle.pm_fraction.specs.Fractions.{is_quotient_negative};

use crate::error::NumError;
use crate::whole::{Whole, gcd};
use std::marker::Model;

/// A number p/q in lowest terms: q is at least 1, and p and q are from -(2^127 - 1) to 2^127 - 1.
#[derive(Clone, Copy, Debug, PartialEq, Eq, Hash)]
pub struct Fraction {
    num: Whole,
    den: Whole,
}

impl Model for Fraction {
    ghost use Rattle.pm_vector.specs.Numbers.{IsReduced, Ratio};

    ghost Value = { Ratio };

    ghost view = { λ f. record { num = f.num; den = f.den } };

    ghost invariant = { λ f. IsReduced (record { num = f.num; den = f.den }) };

    ghost inverse = { λ r. record { num = r.num; den = r.den } };
}

impl Fraction {
    ghost use Rattle.pm_vector.specs.Numbers.{InRange, InRangeRatio, IsReduced};
    ghost use Rattle.pm_fraction.specs.Fractions.{IsLowestTermsOf, IsTooWide, is_quotient_negative, ratio_of, signed};
    ghost use Rattle.pm_fraction.specs.Arithmetic.{inverse_of, opposite_of};

    /// n/d in lowest terms. `ZeroDenominator` exactly where d is 0, and `Wide` exactly where the lowest terms leave
    /// the range.
    pub fn new(n: i128, d: i128) -> Result<Fraction, NumError>
        ensures ok { IfOk result (λ r. IsLowestTermsOf (ratio_of n d) r) }
        ensures fits { IfOk result (λ r. InRangeRatio r) }
        ensures zero { IsErrOf result NumError.ZeroDenominator ↔ (d ≡ pos 0) }
        ensures wide { IsErrOf result NumError.Wide → IsTooWide (ratio_of n d) }
        ensures errors { IfErr result (λ e. (e ≡ NumError.ZeroDenominator) ⊎ (e ≡ NumError.Wide)) }
    {
        if d == 0 {
            return Err(NumError::ZeroDenominator);
        }
        Fraction::of_sizes(
            has_negative_quotient(n, d),
            n.unsigned_abs(),
            d.unsigned_abs(),
        )
    }

    /// top/bottom or -top/bottom in lowest terms.
    pub(crate) fn of_sizes(is_negative: bool, top: u128, bottom: u128) -> Result<Fraction, NumError>
        requires { 0 < bottom }
        ensures ok { IfOk result (λ r. IsLowestTermsOf (ratio_of (signed is_negative top) (pos bottom)) r) }
        ensures fits { IfOk result (λ r. InRangeRatio r) }
        ensures wide { IfErr result (λ e. (e ≡ NumError.Wide)
            × IsTooWide (ratio_of (signed is_negative top) (pos bottom))) }
        ensures small { top < 2 ^ 127 → bottom < 2 ^ 127 → IsOk result }
    {
        let g = gcd(top, bottom);
        let num = Whole::with_sign(is_negative, top / g)?;
        let den = Whole::with_sign(false, bottom / g)?;
        Ok(Fraction::from_parts(num, den))
    }

    /// 0/1
    pub fn zero() -> Fraction
        ensures { result ≡ ratio_of (pos 0) (pos 1) }
    {
        Fraction::from_parts(Whole::ZERO, Whole::ONE)
    }

    /// 1/1
    pub fn one() -> Fraction
        ensures { result ≡ ratio_of (pos 1) (pos 1) }
    {
        Fraction::from_parts(Whole::ONE, Whole::ONE)
    }

    /// n/1. `Wide` exactly where n is out of the range, which is at `i128::MIN`.
    pub fn from_whole(n: i128) -> Result<Fraction, NumError>
        ensures ok { IfOk result (λ r. r ≡ ratio_of n (pos 1)) }
        ensures fits { OnOk result (InRange n) }
        ensures wide { IfErr result (λ e. (e ≡ NumError.Wide) × ¬ (InRange n)) }
    {
        Ok(Fraction::from_parts(Whole::new(n)?, Whole::ONE))
    }

    /// p
    pub fn num(self) -> i128
        ensures value { result ≡ self.num }
        ensures in_range { InRange self.num }
        ensures reduced { IsReduced self }
    {
        self.num.get()
    }

    /// q
    pub fn den(self) -> i128
        ensures value { result ≡ self.den }
        ensures in_range { InRange self.den }
        ensures reduced { IsReduced self }
    {
        self.den.get()
    }

    /// Whether p is 0.
    pub fn is_zero(self) -> bool
        ensures { IsTrue result ↔ (self.num ≡ pos 0) }
    {
        self.num.get() == 0
    }

    /// Whether p is below 0.
    pub fn is_negative(self) -> bool
        ensures { IsTrue result ↔ (self.num <ℤ pos 0) }
    {
        self.num.get() < 0
    }

    /// -p/q, which is in the range too.
    pub fn neg(self) -> Fraction
        ensures { result ≡ opposite_of self }
    {
        let (num, den) = self.parts();
        Fraction::from_parts(num.negated(), den)
    }

    /// q/p, or -q/-p.
    pub(crate) fn inverse(self) -> Fraction
        requires { self.num ≢ pos 0 }
        ensures { result ≡ inverse_of self }
    {
        let (num, den) = self.parts();
        if self.is_negative() {
            Fraction::from_parts(den.negated(), num.negated())
        } else {
            Fraction::from_parts(den, num)
        }
    }

    /// Both parts.
    pub(crate) fn parts(self) -> (Whole, Whole)
        ensures num { result.0 ≡ self.num }
        ensures den { result.1 ≡ self.den }
        ensures reduced { IsReduced self }
    {
        (self.num, self.den)
    }

    /// The fraction of these parts.
    pub(crate) fn from_parts(num: Whole, den: Whole) -> Fraction
        requires { IsReduced (ratio_of num den) }
        ensures { result ≡ ratio_of num den }
    {
        Fraction { num, den }
    }
}

// Whether n / d is below 0.
fn has_negative_quotient(n: i128, d: i128) -> bool
    ensures { result ≡ is_quotient_negative n d }
{
    if d < 0 { n > 0 } else { n < 0 }
}
