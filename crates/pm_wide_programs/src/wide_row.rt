// Wide numbers and rows of them in lowest terms.

ghost use Rattle.pm_vector.specs.Magnitudes.{magnitude_of};
ghost use Rattle.pm_vector.specs.WideInts.{value_of};
ghost use Rattle.std.specs.Prelude.{unsigned_abs, ◌≡◌};

use pm_vector::{Magnitude, WideInt};

/// Whether a number is less than another, where their difference has 512 bits.
pub(crate) fn is_less(a: WideInt, b: WideInt) -> Option<bool> {
    let difference = a.minus(b)?;
    Some(difference.is_negative())
}

/// A number, divided by its greatest common divisor with d. None where that is 0.
pub(crate) fn reduced(n: WideInt, d: Magnitude) -> Option<WideInt> {
    let common = n.gcd_with(d);
    if common.is_zero() {
        return None;
    }
    Some(n.divided_by(common))
}

/// A number without its sign.
pub(crate) fn size_of(n: WideInt) -> Magnitude
    ensures { magnitude_of result ≡ unsigned_abs (value_of n) }
{
    n.gcd_with(Magnitude::of_digit(0))
}

/// Two numbers, divided by their greatest common divisor.
pub(crate) fn lowest_terms(a: WideInt, b: WideInt) -> Option<(WideInt, WideInt)> {
    let common = a.gcd_with(size_of(b));
    Some((reduced(a, common)?, reduced(b, common)?))
}

/// The greatest common divisor of the entries.
fn common_divisor(x: &[WideInt]) -> Magnitude {
    let one = Magnitude::of_digit(1);
    let mut divisor = Magnitude::of_digit(0);
    for i in 0..x.len() {
        divisor = x[i].gcd_with(divisor);
        if !one.is_below(divisor) && !divisor.is_zero() {
            return divisor;
        }
    }
    divisor
}

/// Divides each entry by a divisor of all.
fn divide_all(x: &mut [WideInt], d: Magnitude) -> Option<()> {
    for i in 0..x.len() {
        x[i] = reduced(x[i], d)?;
    }
    Some(())
}

/// Divides a row by the greatest common divisor of its entries.
pub(crate) fn reduce(x: &mut [WideInt]) -> Option<()> {
    let divisor = common_divisor(x);
    if Magnitude::of_digit(1).is_below(divisor) {
        return divide_all(x, divisor);
    }
    Some(())
}

/// p x - f y, where it has 512 bits.
fn difference_of_products(p: WideInt, x: WideInt, f: WideInt, y: WideInt) -> Option<WideInt> {
    let first = p.times(x)?;
    let second = f.times(y)?;
    first.minus(second)
}

/// x becomes p x - f y.
fn write_differences(x: &mut [WideInt], p: WideInt, f: WideInt, y: &[WideInt]) -> Option<()> {
    for i in 0..x.len() {
        let entry = if i < y.len() { y[i] } else { WideInt::of(0) };
        x[i] = difference_of_products(p, x[i], f, entry)?;
    }
    Some(())
}

/// x becomes p x - f y for a positive p, in lowest terms. None where a number on the way has more than 512 bits.
pub(crate) fn move_along(x: &mut [WideInt], p: WideInt, f: WideInt, y: &[WideInt]) -> Option<()> {
    if f.is_zero() {
        return Some(());
    }
    let (p, f) = lowest_terms(p, f)?;
    write_differences(x, p, f, y)?;
    reduce(x)
}
