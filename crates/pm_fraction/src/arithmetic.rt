//! Exact sums, products and quotients.

ghost use Rattle.std.specs.Prelude.{◌≡◌, ◌≢◌, ◌⊎◌, ◌↔◌, ℤ, pos, ◌<ℤ◌, IfOk, IfErr, OnOk, OnErr, IsErrOf, unsigned_abs};
ghost use Rattle.std.specs.Int.{◌∣◌};
ghost use Rattle.pm_vector.specs.Numbers.{InRangeRatio};
ghost use Rattle.pm_fraction.specs.Fractions.{IsLowestTermsOf, IsTooWide, ratio_of};
ghost use Rattle.pm_fraction.specs.Arithmetic.{AreTermsInRange, SumLeaves, SumStays, terms, opposite_of, product_of, quotient_of, sum_of};

use crate::error::NumError;
use crate::fraction::Fraction;
use crate::whole::Whole;

impl Fraction {
    /// p + q. `Wide` exactly where one of the numbers that the sum is made by leaves the range: over the least common
    /// denominator the two numerators, their sum, or the denominator in lowest terms.
    pub fn add(self, other: Fraction) -> Result<Fraction, NumError>
        ensures ok { IfOk result (λ r. IsLowestTermsOf (sum_of self other) r) }
        ensures fits { IfOk result (λ r. InRangeRatio r) }
        ensures stays { OnOk result (SumStays self other) }
        ensures wide { OnErr result (SumLeaves self other) }
        ensures only_wide { IfErr result (λ e. e ≡ NumError.Wide) }
    {
        let (_, d) = self.parts();
        let (_, e) = other.parts();
        let g = d.common(e);
        let sum = self.sum_of_terms(other, g)?;
        let h = sum.common(g);
        let den = d.exact(g).times(e.exact(h))?;
        Ok(Fraction::from_parts(sum.exact(h), den))
    }

    // The numerator of p + q over the least common denominator, where g is the greatest common divisor of the
    // denominators.
    fn sum_of_terms(self, other: Fraction, g: Whole) -> Result<Whole, NumError>
        requires positive { pos 0 <ℤ g }
        requires divides { unsigned_abs g ∣ unsigned_abs self.den }
        requires divides_other { unsigned_abs g ∣ unsigned_abs other.den }
        ensures ok { IfOk result (λ r. r ≡ terms self other g) }
        ensures stays { OnOk result (AreTermsInRange self other g) }
        ensures wide { IfErr result (λ e. (e ≡ NumError.Wide) × ¬ (AreTermsInRange self other g)) }
    {
        let (n, d) = self.parts();
        let (m, e) = other.parts();
        let first = n.times(e.exact(g))?;
        let second = m.times(d.exact(g))?;
        first.plus(second)
    }

    /// p q. `Wide` exactly where its lowest terms leave the range.
    pub fn mul(self, other: Fraction) -> Result<Fraction, NumError>
        ensures ok { IfOk result (λ r. IsLowestTermsOf (product_of self other) r) }
        ensures fits { IfOk result (λ r. InRangeRatio r) }
        ensures wide { OnErr result (IsTooWide (product_of self other)) }
        ensures only_wide { IfErr result (λ e. e ≡ NumError.Wide) }
    {
        let (n, d) = self.parts();
        let (m, e) = other.parts();
        let (first, second_den) = n.cancelled(e);
        let (second, first_den) = m.cancelled(d);
        let num = first.times(second)?;
        let den = first_den.times(second_den)?;
        Ok(Fraction::from_parts(num, den))
    }

    /// p - q, made as the sum of p and -q.
    pub fn sub(self, other: Fraction) -> Result<Fraction, NumError>
        ensures ok { IfOk result (λ r. IsLowestTermsOf (sum_of self (opposite_of other)) r) }
        ensures fits { IfOk result (λ r. InRangeRatio r) }
        ensures stays { OnOk result (SumStays self (opposite_of other)) }
        ensures wide { OnErr result (SumLeaves self (opposite_of other)) }
        ensures only_wide { IfErr result (λ e. e ≡ NumError.Wide) }
    {
        self.add(other.neg())
    }

    /// p / q. `DivideByZero` exactly where q is 0, and `Wide` exactly where the lowest terms of the quotient leave
    /// the range.
    pub fn div(self, other: Fraction) -> Result<Fraction, NumError>
        ensures ok { IfOk result (λ r. IsLowestTermsOf (quotient_of self other) r) }
        ensures fits { IfOk result (λ r. InRangeRatio r) }
        ensures zero { IsErrOf result NumError.DivideByZero ↔ (other.num ≡ pos 0) }
        ensures wide { IsErrOf result NumError.Wide → IsTooWide (quotient_of self other) }
        ensures errors { IfErr result (λ e. (e ≡ NumError.DivideByZero) ⊎ (e ≡ NumError.Wide)) }
    {
        if other.is_zero() {
            return Err(NumError::DivideByZero);
        }
        self.mul(other.inverse())
    }
}
