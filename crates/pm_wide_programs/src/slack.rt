// Slacks of a value at rows, by wide numbers.

ghost use Rattle.pm_vector.specs.WideInts.{IsFactor, value_of};
ghost use Rattle.pm_wide_programs.specs.Slacks.{slack_of};
ghost use Rattle.std.specs.Prelude.{length, ◌*ℤ◌, ◌-ℤ◌, ◌<◌, ◌≡◌};

use crate::objective::WholeObjective;
use pm_fraction::Fraction;
use pm_vector::{Ints, WideInt, wide_dot};

/// p x.
fn product(p: WideInt, x: i128) -> WideInt
    requires { IsFactor (value_of p) }
    ensures { value_of result ≡ value_of p *ℤ x }
{
    let Some(made) = p.times(WideInt::of(x)) else {
        unreachable!()
    };
    made
}

/// p x - q y.
fn difference_of_products(p: WideInt, x: i128, q: WideInt, y: i128) -> WideInt
    requires p_factor { IsFactor (value_of p) }
    requires q_factor { IsFactor (value_of q) }
    ensures { value_of result ≡ value_of p *ℤ x -ℤ value_of q *ℤ y }
{
    let first = product(p, x);
    let second = product(q, y);
    let Some(made) = first.minus(second) else {
        unreachable!()
    };
    made
}

/// The product of two numbers of 128 bits.
fn product_of_two(a: i128, b: i128) -> WideInt
    ensures value { value_of result ≡ a *ℤ b }
    ensures small { IsFactor (value_of result) }
{
    WideInt::product(a, b)
}

/// The slack of a value at a row: it always has 512 bits.
pub(crate) fn slack(objective: &WholeObjective, value: Fraction, x: &Ints) -> WideInt
    requires some { 0 < length x.now }
    requires cols { length x.now ≡ length objective.now.row }
    ensures { value_of result ≡ slack_of objective.now.times objective.now.row value x.now }
{
    let scaled = product_of_two(value.num(), objective.times);
    let product = wide_dot(objective.row.as_slice(), x.as_slice());
    difference_of_products(scaled, x.get(0), product, value.den())
}
