// The extended list of a basis: for each column the row of its entries and then a unit row.

ghost use Rattle.pm_vector.specs.Numbers.{InRange};
ghost use Rattle.pm_vector.specs.Rows.{HasCols};
ghost use Rattle.pm_vector.specs.Evidence.{IsExtended, column_of, unit};
ghost use Rattle.std.specs.Prelude.{All, IfOk, OnOk, drop, length, ◌+◌, ◌++◌, ◌<◌, ◌≡◌, ◌≤◌};

use pm_vector::Ints;
use std::alloc::{AllocError, Global};

/// The entries of rows in a column.
fn column_row(alloc: Global, rows: &[Ints], cols: usize, i: usize) -> Result<Ints, AllocError>
    requires columns { HasCols cols rows.now }
    requires within { i < cols }
    ensures { IfOk result (λ x. x ≡ column_of rows.now i) }
{
    let mut made = Ints::new(alloc);
    for row in rows {
        made.push(row.get(i))?;
    }
    Ok(made)
}

/// Puts the entries of a unit row behind a row.
fn push_unit(row: &mut Ints, n: usize, i: usize) -> Result<(), AllocError>
    requires { i < n }
    ensures { OnOk result (row.new ≡ row.old ++ unit n i) }
{
    for k in 0..n {
        row.push(if k == i { 1 } else { 0 })?;
    }
    Ok(())
}

/// The extended list of rows with `cols` entries each.
pub(crate) fn extended(alloc: Global, rows: &[Ints], cols: usize) -> Result<Vec<Ints>, AllocError>
    requires { HasCols cols rows.now }
    ensures { IfOk result (λ v. IsExtended cols rows.now v.items) }
{
    let mut made = Vec::new(alloc);
    for i in 0..cols {
        let mut row = column_row(alloc, rows, cols, i)?;
        push_unit(&mut row, cols, i)?;
        made.push(row)?;
    }
    Ok(made)
}

/// The entries of a row from a column on.
pub(crate) fn tail_of(alloc: Global, row: &Ints, from: usize) -> Result<Ints, AllocError>
    requires { from ≤ length row.now }
    ensures { IfOk result (λ x. x ≡ drop from row.now) }
{
    let entries = Vec::from_slice(alloc, &row.as_slice()[from..])?;
    Ok(Ints::from_vec(entries))
}
