// The dual rows of all places by one elimination by wide numbers: that of the extended list of the rows themselves.

ghost use Rattle.pm_vector.specs.Bases.{column, row_at};
ghost use Rattle.pm_vector.specs.Divisors.{IsPrimitiveOf};
ghost use Rattle.pm_vector.specs.Rows.{HasCols};
ghost use Rattle.pm_elim.specs.Duals.{IsDualBasis};
ghost use Rattle.std.specs.Prelude.{All, IfOk, IsTrue, drop, length, ◌<◌, ◌^◌, ◌≡◌, ◌≤◌, ◌↔◌, ℕ};

use crate::extended::{extended, tail_of};
use crate::wide_bases::wide_basis;
use crate::wide_rounds::WideFail;
use pm_vector::{Ints, primitive};
use std::alloc::{AllocError, Global};

/// Whether the first columns, as many as `count` says, are 0, 1 and so on.
fn begin_with_all(columns: &[usize], count: usize) -> bool
    ensures { IsTrue result ↔ ((i : ℕ) → i < count
        → (i < length columns.now) × (column columns.now i ≡ i)) }
{
    for i in 0..count {
        if i >= columns.len() || columns[i] != i {
            return false;
        }
    }
    true
}

/// The entries of each row from a column on, made primitive.
fn primitive_tails(alloc: Global, rows: &[Ints], from: usize) -> Result<Vec<Ints>, AllocError>
    requires { All (λ r. from ≤ length r) rows.now }
    ensures as_many { IfOk result (λ v. length v.items ≡ length rows.now) }
    ensures each { IfOk result (λ v. (i : ℕ) → i < length rows.now
        → IsPrimitiveOf (drop from (row_at rows.now i)) (row_at v.items i)) }
{
    let mut made = Vec::new(alloc);
    for i in 0..rows.len() {
        let mut tail = tail_of(alloc, &rows[i], from)?;
        primitive(&mut tail);
        made.push(tail)?;
    }
    Ok(made)
}

/// The dual basis of the rows, from the echelon basis of their extended list: where its first pivots are the columns
/// of the products with the rows, each of these rows has a product with one of them alone.
/// `Lost` also where the rows are dependent.
pub(crate) fn duals_at_once(
    alloc: Global,
    rows: &[Ints],
    cols: usize,
) -> Result<Vec<Ints>, WideFail>
    requires columns { HasCols cols rows.now }
    requires few_rows { length rows.now < 2 ^ 32 }
    requires few_columns { cols < 2 ^ 31 }
    ensures { IfOk result (λ v. IsDualBasis cols rows.now v.items) }
{
    let listed = extended(alloc, rows, cols)?;
    let whole = wide_basis(alloc, &listed, rows.len() + cols)?;
    if !begin_with_all(&whole.pivots, rows.len()) {
        return Err(WideFail::Lost);
    }
    let duals = primitive_tails(alloc, &whole.rows[..rows.len()], rows.len())?;
    Ok(duals)
}
