// Equations that lead a list: rows with their opposites after them.

ghost use Rattle.pm_vector.specs.Rows.{opposite};
ghost use Rattle.pm_vector.specs.Bases.{row_at};
ghost use Rattle.pm_dd.specs.Arrangement.{Leads};
ghost use Rattle.std.specs.Prelude.{IfOk, IsTrue, length, ◌*◌, ◌+◌, ◌<◌, ◌≡◌, ◌≤◌, ℕ};

use pm_vector::{Ints, negate};
use std::alloc::{AllocError, Global};

/// Whether the second row is the opposite of the first.
fn is_opposite(alloc: Global, first: &Ints, second: &Ints) -> Result<bool, AllocError>
    ensures { IfOk result (λ b. IsTrue b → second.now ≡ opposite first.now) }
{
    let mut turned = first.copy(alloc)?;
    negate(&mut turned);
    Ok(*second == turned)
}

/// How many pairs of a row and its opposite the list begins with.
pub(crate) fn leading_pairs(alloc: Global, rows: &[Ints]) -> Result<usize, AllocError>
    ensures within { IfOk result (λ k. 2 * k ≤ length rows.now) }
    ensures opposites { IfOk result (λ k. (i : ℕ) → i < k
        → row_at rows.now (2 * i + 1) ≡ opposite (row_at rows.now (2 * i))) }
{
    for i in 0..rows.len() / 2 {
        if !is_opposite(alloc, &rows[2 * i], &rows[2 * i + 1])? {
            return Ok(i);
        }
    }
    Ok(rows.len() / 2)
}

/// The first rows of the pairs that a list begins with, as long as they enlarge the span.
pub(crate) fn leading_equations(
    alloc: Global,
    rows: &[Ints],
    marks: &[bool],
    pairs: usize,
) -> Result<Vec<Ints>, AllocError>
    requires as_many { length marks.now ≡ length rows.now }
    requires within { 2 * pairs ≤ length rows.now }
    requires opposites { (i : ℕ) → i < pairs
        → row_at rows.now (2 * i + 1) ≡ opposite (row_at rows.now (2 * i)) }
    ensures { IfOk result (λ v. Leads rows.now marks.now v.items) }
{
    let mut made = Vec::new(alloc);
    for i in 0..pairs {
        if !marks[2 * i] || marks[2 * i + 1] {
            return Ok(made);
        }
        made.push(rows[2 * i].copy(alloc)?)?;
    }
    Ok(made)
}
