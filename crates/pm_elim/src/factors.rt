// The factors that cancel two entries.

ghost use Rattle.pm_vector.specs.Numbers.{InRange};
ghost use Rattle.pm_vector.specs.Steps.{IsFactors};
ghost use Rattle.std.specs.Prelude.{pos, ◌<ℤ◌, ◌*ℤ◌, ◌≡◌};

use pm_vector::gcd;

/// The multiples of two rows whose difference is 0 in a column.
#[derive(Clone, Copy)]
pub struct Factors {
    /// How many times the first row is taken.
    pub first: i128,
    /// How many times the second row is taken away.
    pub second: i128,
}

/// The least multiples, the first of them positive, of a row with x and of a row with y in a column whose difference
/// is 0 there: y and x, each divided by the greatest common divisor of |x| and y.
pub fn cancelling_factors(x: i128, y: i128) -> Factors
    requires x_in_range { InRange x }
    requires y_in_range { InRange y }
    requires positive { pos 0 <ℤ y }
    ensures factors { IsFactors x y result.first result.second }
    ensures cancel { result.first *ℤ x ≡ result.second *ℤ y }
    ensures positive { pos 0 <ℤ result.first }
{
    let divisor = gcd(x.unsigned_abs(), y.unsigned_abs()) as i128;
    Factors {
        first: y / divisor,
        second: x / divisor,
    }
}
