// Exact products of whole rows with wide numbers.

ghost use Rattle.pm_vector.specs.Rows.{HasCols, dot as dot_of};
ghost use Rattle.pm_vector.specs.WideInts.{value_of};
ghost use Rattle.pm_geom.specs.Programs.{Solves};
ghost use Rattle.pm_wide_programs.specs.Values.{values};
ghost use Rattle.std.specs.List.{AllByRecursion};
ghost use Rattle.std.specs.Prelude.{IfSome, IsTrue, length, pos, ◌*ℤ◌, ◌+ℤ◌, ◌≡◌, ◌≤ℤ◌};

use pm_vector::{Ints, WideInt};

/// A sum and one product more, where they have 512 bits.
pub(crate) fn add_product(sum: WideInt, a: i128, x: WideInt) -> Option<WideInt>
    ensures { IfSome result (λ r. value_of r ≡ value_of sum +ℤ a *ℤ value_of x) }
{
    let product = WideInt::of(a).times(x)?;
    sum.plus(product)
}

/// The sum of the products of the entries, where it has 512 bits on the way.
pub(crate) fn product(a: &[i128], x: &[WideInt]) -> Option<WideInt>
    requires { length a.now ≡ length x.now }
    ensures { IfSome result (λ r. value_of r ≡ dot_of a.now (values x.now)) }
{
    let mut sum = WideInt::of(0);
    for i in 0..a.len() {
        sum = add_product(sum, a[i], x[i])?;
    }
    Some(sum)
}

/// Whether each product of a row with x is made and is not negative.
fn none_negative(rows: &[Ints], x: &[WideInt]) -> bool
    requires { HasCols (length x.now) rows.now }
    ensures { IsTrue result → AllByRecursion (λ a. pos 0 ≤ℤ dot_of a (values x.now)) rows.now }
{
    for i in 0..rows.len() {
        match product(rows[i].as_slice(), x) {
            Some(made) if !made.is_negative() => {}
            _ => return false,
        }
    }
    true
}

/// Whether each product of a row with x is made and is 0.
fn all_zero(rows: &[Ints], x: &[WideInt]) -> bool
    requires { HasCols (length x.now) rows.now }
    ensures { IsTrue result → AllByRecursion (λ b. dot_of b (values x.now) ≡ pos 0) rows.now }
{
    for i in 0..rows.len() {
        match product(rows[i].as_slice(), x) {
            Some(made) if made.is_zero() => {}
            _ => return false,
        }
    }
    true
}

/// Whether exact products show that x solves the rows.
pub(crate) fn solves(inequalities: &[Ints], equations: &[Ints], x: &[WideInt]) -> bool
    requires inequality_cols { HasCols (length x.now) inequalities.now }
    requires equation_cols { HasCols (length x.now) equations.now }
    ensures { IsTrue result → Solves inequalities.now equations.now (values x.now) }
{
    none_negative(inequalities, x) && all_zero(equations, x)
}
