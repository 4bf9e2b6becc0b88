//! Whole numbers in the range: products, sums, greatest common divisors, exact quotients.

ghost use Rattle.std.specs.Prelude.{◌≡◌, ◌<◌, ◌≤◌, ◌^◌, ℤ, pos, ◌+ℤ◌, ◌*ℤ◌, ◌<ℤ◌, neg_ℤ, IfOk, IfErr, OnOk, IsTrue, ◌↔◌, unsigned_abs, int_div};
ghost use Rattle.std.specs.Int.{IsGcd, ◌∣◌};
ghost use Rattle.pm_vector.specs.Numbers.{InRange};
ghost use Rattle.pm_fraction.specs.Divisors.{IsCancelled};
ghost use Rattle.pm_fraction.specs.Fractions.{signed};

use crate::error::NumError;
use std::marker::Model;

/// A whole number from -(2^127 - 1) to 2^127 - 1.
#[derive(Clone, Copy, Debug, PartialEq, Eq, Hash)]
pub(crate) struct Whole {
    value: i128,
}

impl Model for Whole {
    ghost use Rattle.std.specs.Prelude.{ℤ};
    ghost use Rattle.pm_vector.specs.Numbers.{InRange};

    ghost Value = { ℤ };

    ghost view = { λ w. w.value };

    ghost invariant = { λ w. InRange w.value };

    ghost inverse = { λ z. record { value = z } };
}

// Products of numbers up to this size are below 2^126.
const SMALL: i128 = 0x7fff_ffff_ffff_ffff;

fn is_small(a: i128) -> bool
    ensures { IsTrue result ↔ (unsigned_abs a < 2 ^ 63) }
{
    -SMALL <= a && a <= SMALL
}

impl Whole {
    pub(crate) const ZERO: Whole = Whole { value: 0 };

    pub(crate) const ONE: Whole = Whole { value: 1 };

    /// `Wide` exactly where the number is not in the range.
    pub(crate) fn new(value: i128) -> Result<Whole, NumError>
        ensures value { IfOk result (λ r. r ≡ value) }
        ensures in_range { OnOk result (InRange value) }
        ensures wide { IfErr result (λ e. (e ≡ NumError.Wide) × ¬ (InRange value)) }
    {
        if value == i128::MIN {
            return Err(NumError::Wide);
        }
        Ok(Whole { value })
    }

    /// The number of this size and sign. `Wide` exactly where it leaves the range.
    pub(crate) fn with_sign(is_negative: bool, size: u128) -> Result<Whole, NumError>
        ensures value { IfOk result (λ r. r ≡ signed is_negative size) }
        ensures in_range { OnOk result (size < 2 ^ 127) }
        ensures wide { IfErr result (λ e. (e ≡ NumError.Wide) × (2 ^ 127 ≤ size)) }
    {
        if size > i128::MAX as u128 {
            return Err(NumError::Wide);
        }
        let magnitude = size as i128;
        let value = if is_negative { -magnitude } else { magnitude };
        Ok(Whole { value })
    }

    pub(crate) fn get(self) -> i128
        ensures value { result ≡ self }
        ensures in_range { InRange self }
    {
        self.value
    }

    /// -a
    pub(crate) fn negated(self) -> Whole
        ensures { result ≡ neg_ℤ self }
    {
        Whole { value: -self.value }
    }

    /// a b. `Wide` exactly where it leaves the range.
    pub(crate) fn times(self, other: Whole) -> Result<Whole, NumError>
        ensures value { IfOk result (λ r. r ≡ self *ℤ other) }
        ensures in_range { IfOk result (λ r. InRange r) }
        ensures wide { IfErr result (λ e. (e ≡ NumError.Wide) × ¬ (InRange (self *ℤ other))) }
    {
        let a = self.get();
        let b = other.get();
        if is_small(a) && is_small(b) {
            return Ok(Whole { value: a * b });
        }
        match a.checked_mul(b) {
            Some(product) => Whole::new(product),
            None => Err(NumError::Wide),
        }
    }

    /// a + b. `Wide` exactly where it leaves the range.
    pub(crate) fn plus(self, other: Whole) -> Result<Whole, NumError>
        ensures value { IfOk result (λ r. r ≡ self +ℤ other) }
        ensures in_range { OnOk result (InRange (self +ℤ other)) }
        ensures wide { IfErr result (λ e. (e ≡ NumError.Wide) × ¬ (InRange (self +ℤ other))) }
    {
        match self.get().checked_add(other.get()) {
            Some(sum) => Whole::new(sum),
            None => Err(NumError::Wide),
        }
    }

    /// The greatest common divisor of a and a positive b.
    pub(crate) fn common(self, other: Whole) -> Whole
        requires { pos 0 <ℤ other }
        ensures gcd { IsGcd (unsigned_abs self) (unsigned_abs other) (unsigned_abs result) }
        ensures positive { pos 0 <ℤ result }
    {
        let divisor = gcd(self.get().unsigned_abs(), other.get().unsigned_abs());
        Whole {
            value: divisor as i128,
        }
    }

    /// a / g, where g divides a.
    pub(crate) fn exact(self, divisor: Whole) -> Whole
        requires positive { pos 0 <ℤ divisor }
        requires divides { unsigned_abs divisor ∣ unsigned_abs self }
        ensures quotient { result ≡ int_div self divisor }
        ensures factor { self ≡ divisor *ℤ result }
    {
        let a = self.get();
        let g = divisor.get();
        if g == 1 {
            return self;
        }
        Whole { value: a / g }
    }

    /// a and a positive b, both divided by their greatest common divisor.
    pub(crate) fn cancelled(self, other: Whole) -> (Whole, Whole)
        requires { pos 0 <ℤ other }
        ensures { IsCancelled self other result.0 result.1 }
    {
        let g = self.common(other);
        (self.exact(g), other.exact(g))
    }
}

// Euclid's algorithm on numbers of 64 bits.
fn gcd_of_words(a: u64, b: u64) -> u64
    ensures { IsGcd a b result }
{
    let mut x = a;
    let mut y = b;
    while y != 0 {
        let r = x % y;
        x = y;
        y = r;
    }
    x
}

/// The greatest common divisor: Euclid's algorithm on numbers of 128 bits until both have 64.
pub(crate) fn gcd(a: u128, b: u128) -> u128
    ensures { IsGcd a b result }
{
    let mut x = a;
    let mut y = b;
    while y > u64::MAX as u128 {
        let r = x % y;
        x = y;
        y = r;
    }
    if y == 0 {
        return x;
    }
    gcd_of_words(y as u64, (x % y) as u64) as u128
}
