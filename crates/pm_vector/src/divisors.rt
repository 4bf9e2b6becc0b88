// Greatest common divisors, by Euclid's algorithm.

ghost use Rattle.pm_vector.specs.Divisors.{IsGcdOf, IsPrimitiveOf};
ghost use Rattle.pm_vector.specs.Numbers.{InRange};
ghost use Rattle.pm_vector.specs.Quotients.{IsQuotientByGcd};
ghost use Rattle.std.specs.Int.{IsGcd};
ghost use Rattle.std.specs.Prelude.{All, int_div, map, pos, ◌<ℤ◌, ◌≡◌};

/// The greatest common divisor of two numbers; that of 0 and 0 is 0.
pub fn gcd(a: u128, b: u128) -> u128
    ensures { IsGcd a b result }
{
    let mut x = a;
    let mut y = b;
    while y != 0 {
        let r = x % y;
        x = y;
        y = r;
    }
    x
}

/// The greatest common divisor of the entries of a row; that of a zero row is 0.
pub fn gcd_of(row: &[i128]) -> u128
    ensures { IsGcdOf row.now result }
{
    let mut divisor = 0u128;
    for i in 0..row.len() {
        divisor = gcd(divisor, row[i].unsigned_abs());
        if divisor == 1 {
            return 1;
        }
    }
    divisor
}

/// Divides each entry by d, rounding toward zero.
fn divide(row: &mut [i128], d: i128)
    requires { pos 0 <ℤ d }
    ensures { row.new ≡ map (λ z. int_div z d) row.old }
{
    for x in row.iter_mut() {
        *x /= d;
    }
}

/// Divides a row by the greatest common divisor of its entries; the zero row stays.
pub(crate) fn divide_by_gcd(row: &mut [i128])
    requires { All InRange row.old }
    ensures primitive { IsPrimitiveOf row.old row.new }
    ensures quotient { IsQuotientByGcd row.old row.new }
    ensures in_range { All InRange row.new }
{
    let divisor = gcd_of(row);
    if divisor > 1 {
        divide(row, divisor as i128);
    }
}
