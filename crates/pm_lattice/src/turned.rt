// Closing the columns of a table in place of its rows, where they are fewer.
ghost use Rattle.pm_bits.specs.Sets.{IsSubset, has};
ghost use Rattle.pm_bits.specs.Table.{row_at};
ghost use Rattle.pm_lattice.specs.Closures.{IsClosureOf};
ghost use Rattle.pm_lattice.specs.Turned.{AreShared, IsShared, IsTurned};
ghost use Rattle.std.specs.List.{All};
ghost use Rattle.std.specs.Prelude.{ℕ, ◌<◌, ◌≡◌, IfOk, length};

use crate::closure::{Closure, close};
use pm_bits::{BitRow, BitTable};
use std::alloc::{AllocError, Global};

// The places of the rows that have a.
fn column_of(alloc: Global, rows: &BitTable, a: usize) -> Result<BitRow, AllocError>
    requires { a < rows.now.row_len }
    ensures len { IfOk result (λ column. length column ≡ length rows.now.rows) }
    ensures members { IfOk result (λ column. (i : ℕ) → has column i ≡ has (row_at rows.now i) a) }
{
    let mut column = BitRow::with_len(alloc, rows.len())?;
    for i in 0..rows.len() {
        if rows.row(i).get(a) {
            column.set(i);
        }
    }
    Ok(column)
}

// The table turned.
fn turned(alloc: Global, rows: &BitTable) -> Result<BitTable, AllocError>
    ensures { IfOk result (IsTurned rows.now) }
{
    let mut columns = BitTable::new(alloc, rows.len());
    for a in 0..rows.row_len() {
        let Ok(()) = columns.push(column_of(alloc, rows, a)?) else {
            return Err(AllocError);
        };
    }
    Ok(columns)
}

// The places that each row of a set of rows has, where the columns are the rows turned.
fn shared_by(alloc: Global, columns: &BitTable, set: &BitRow) -> Result<BitRow, AllocError>
    requires { length set.now ≡ columns.now.row_len }
    ensures { IfOk result (IsShared columns.now set.now) }
{
    let mut face = BitRow::with_len(alloc, columns.len())?;
    for a in 0..columns.len() {
        if columns.row(a).contains(set) {
            face.set(a);
        }
    }
    Ok(face)
}

// The faces that sets of rows have in common, in order.
fn faces_of(alloc: Global, columns: &BitTable, sets: &[BitRow]) -> Result<Vec<BitRow>, AllocError>
    requires { All (λ set. length set ≡ columns.now.row_len) sets.now }
    ensures { IfOk result (λ faces. AreShared columns.now sets.now faces.items) }
{
    let mut faces = Vec::new(alloc);
    for set in sets {
        faces.push(shared_by(alloc, columns, set)?)?;
    }
    faces.sort_unstable();
    Ok(faces)
}

/// Closes the rows of a table under intersection: by the sets of rows that contain a face, where the
/// rows are more than the places.
pub(crate) fn close_either(alloc: Global, rows: &BitTable) -> Result<Closure, AllocError>
    ensures { IfOk result (IsClosureOf rows.now) }
{
    if rows.len() <= rows.row_len() {
        return close(alloc, rows);
    }
    let columns = turned(alloc, rows)?;
    match close(alloc, &columns)? {
        Closure::All(sets) => Ok(Closure::All(faces_of(alloc, &columns, &sets)?)),
        Closure::Many(sets) => Ok(Closure::Many(faces_of(alloc, &columns, &sets)?)),
    }
}
