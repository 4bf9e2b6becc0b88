// Exact sums of rows, each taken a wide number of times, column by column.

ghost use Rattle.pm_vector.specs.Bases.{row_at};
ghost use Rattle.pm_vector.specs.Cones.{combination};
ghost use Rattle.pm_vector.specs.Rows.{HasCols, Same, entry, plus, times as times_of};
ghost use Rattle.pm_vector.specs.WideInts.{value_of};
ghost use Rattle.pm_wide_programs.specs.Values.{values};
ghost use Rattle.std.specs.Prelude.{IfSome, IsTrue, [], length, pos, ◌+ℤ◌, ◌+◌, ◌++◌, ◌<◌, ◌∷◌, ◌≡◌, ◌≤ℤ◌, ◌≤◌, ℕ};

use crate::products::add_product;
use pm_vector::{Ints, WideInt};

/// An entry of a row, of which the inequalities come first and then the equations.
fn coefficient(inequalities: &[Ints], equations: &[Ints], cols: usize, i: usize, j: usize) -> i128
    requires row { i < length inequalities.now + length equations.now }
    requires column { j < cols }
    requires inequality_cols { HasCols cols inequalities.now }
    requires equation_cols { HasCols cols equations.now }
    ensures { result ≡ entry (row_at (inequalities.now ++ equations.now) i) j }
{
    if i < inequalities.len() {
        inequalities[i].get(j)
    } else {
        equations[i - inequalities.len()].get(j)
    }
}

/// The sum of `start` and the entries of a column, each taken its number of times, where it has 512 bits on the way.
fn add_column(
    start: WideInt,
    multipliers: &[WideInt],
    inequalities: &[Ints],
    equations: &[Ints],
    cols: usize,
    j: usize,
) -> Option<WideInt>
    requires as_many { length multipliers.now ≡ length inequalities.now + length equations.now }
    requires column { j < cols }
    requires inequality_cols { HasCols cols inequalities.now }
    requires equation_cols { HasCols cols equations.now }
    ensures { IfSome result (λ r. value_of r ≡ value_of start
        +ℤ entry (combination (values multipliers.now) (inequalities.now ++ equations.now)) j) }
{
    let mut sum = start;
    for i in 0..multipliers.len() {
        let a = coefficient(inequalities, equations, cols, i, j);
        sum = add_product(sum, a, multipliers[i])?;
    }
    Some(sum)
}

/// The entry in a column of the sum of a row, taken `scale` times, and the rows, each taken its number of times.
fn column_sum(
    scale: WideInt,
    row: &Ints,
    multipliers: &[WideInt],
    inequalities: &[Ints],
    equations: &[Ints],
    j: usize,
) -> Option<WideInt>
    requires as_many { length multipliers.now ≡ length inequalities.now + length equations.now }
    requires column { j < length row.now }
    requires inequality_cols { HasCols (length row.now) inequalities.now }
    requires equation_cols { HasCols (length row.now) equations.now }
    ensures { IfSome result (λ r. value_of r ≡ entry (plus (times_of (value_of scale) row.now)
        (combination (values multipliers.now) (inequalities.now ++ equations.now))) j) }
{
    let start = scale.times(WideInt::of(row.get(j)))?;
    add_column(start, multipliers, inequalities, equations, row.len(), j)
}

/// The constant that a row, taken `scale` times, and the rows, each taken its number of times, have as their sum,
/// where they have one, and exact sums show it.
pub(crate) fn constant_of(
    scale: WideInt,
    row: &Ints,
    multipliers: &[WideInt],
    inequalities: &[Ints],
    equations: &[Ints],
) -> Option<WideInt>
    requires some { 0 < length row.now }
    requires as_many { length multipliers.now ≡ length inequalities.now + length equations.now }
    requires inequality_cols { HasCols (length row.now) inequalities.now }
    requires equation_cols { HasCols (length row.now) equations.now }
    ensures { IfSome result (λ v. Same (value_of v ∷ []) (plus (times_of (value_of scale) row.now)
        (combination (values multipliers.now) (inequalities.now ++ equations.now)))) }
{
    for j in 1..row.len() {
        let sum = column_sum(scale, row, multipliers, inequalities, equations, j)?;
        if !sum.is_zero() {
            return None;
        }
    }
    column_sum(scale, row, multipliers, inequalities, equations, 0)
}

/// Whether none of the first numbers is negative.
pub(crate) fn first_not_negative(numbers: &[WideInt], count: usize) -> bool
    requires { count ≤ length numbers.now }
    ensures { IsTrue result → (i : ℕ) → i < count → pos 0 ≤ℤ entry (values numbers.now) i }
{
    for i in 0..count {
        if numbers[i].is_negative() {
            return false;
        }
    }
    true
}
