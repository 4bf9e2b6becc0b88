// Exact products and sums of rows.

ghost use Rattle.pm_vector.specs.Cones.{combination};
ghost use Rattle.pm_vector.specs.Rows.{HasCols, Same, dot as dot_of, plus, times};
ghost use Rattle.pm_geom.specs.Programs.{Solves};
ghost use Rattle.std.specs.List.{AllByRecursion};
ghost use Rattle.std.specs.Prelude.{IsTrue, length, pos, ◌≡◌, ◌≤ℤ◌};

use pm_vector::{Ints, combine, dot};

/// Whether each product of a row with x is exact and not negative.
fn none_negative(rows: &[Ints], x: &[i128]) -> bool
    requires { HasCols (length x.now) rows.now }
    ensures { IsTrue result → AllByRecursion (λ a. pos 0 ≤ℤ dot_of a x.now) rows.now }
{
    for i in 0..rows.len() {
        match dot(rows[i].as_slice(), x) {
            Ok(product) if product >= 0 => {}
            _ => return false,
        }
    }
    true
}

/// Whether each product of a row with x is exact and 0.
fn all_zero(rows: &[Ints], x: &[i128]) -> bool
    requires { HasCols (length x.now) rows.now }
    ensures { IsTrue result → AllByRecursion (λ b. dot_of b x.now ≡ pos 0) rows.now }
{
    for i in 0..rows.len() {
        match dot(rows[i].as_slice(), x) {
            Ok(0) => {}
            _ => return false,
        }
    }
    true
}

/// Whether exact products show that x solves the rows.
pub(crate) fn solves(inequalities: &[Ints], equations: &[Ints], x: &[i128]) -> bool
    requires inequality_cols { HasCols (length x.now) inequalities.now }
    requires equation_cols { HasCols (length x.now) equations.now }
    ensures { IsTrue result → Solves inequalities.now equations.now x.now }
{
    none_negative(inequalities, x) && all_zero(equations, x)
}

/// Adds a row a number of times, where that is exact.
fn add_times(sum: &mut Ints, t: i128, row: &Ints) -> bool
    requires { length row.now ≡ length sum.old }
    ensures cols { length sum.new ≡ length sum.old }
    ensures sum { IsTrue result → Same sum.new (plus sum.old (times t row.now)) }
{
    let Some(opposite) = t.checked_neg() else {
        return false;
    };
    match combine(1, sum, opposite, row) {
        Ok(()) => true,
        Err(_) => false,
    }
}

/// Adds each row its number of times, where that is exact.
pub(crate) fn add_rows(sum: &mut Ints, times: &[i128], rows: &[Ints]) -> bool
    requires as_many { length times.now ≡ length rows.now }
    requires cols { HasCols (length sum.old) rows.now }
    ensures cols { length sum.new ≡ length sum.old }
    ensures sum { IsTrue result → Same sum.new (plus sum.old (combination times.now rows.now)) }
{
    for i in 0..rows.len() {
        if !add_times(sum, times[i], &rows[i]) {
            return false;
        }
    }
    true
}
