// Sets of indices as rows of bits.
ghost use Rattle.pm_bits.specs.Sets.{has};
ghost use Rattle.pm_geom.specs.Graphs.{holds};
ghost use Rattle.pm_graph.specs.Levels.{AreBelow};
ghost use Rattle.pm_graph.specs.Slices.{rows_of};
ghost use Rattle.pm_graph.specs.Tables.{AreColumnsOf, HaveLength, IsMarked, IsTableOf, KeepLengths};
ghost use Rattle.std.specs.List.{All};
ghost use Rattle.std.specs.Prelude.{IfOk, OnOk, [], length, ℕ, ◌++◌, ◌<◌, ◌∷◌, ◌≡◌};

use pm_bits::{BitRow, BitTable};
use std::alloc::{AllocError, Global};

// The row of bits of a list of indices.
fn row_of(alloc: Global, set: &[u32], len: usize) -> Result<BitRow, AllocError>
    requires { All (λ j. j < len) set.now }
    ensures len { IfOk result (λ row. length row ≡ len) }
    ensures members { IfOk result (λ row. (j : ℕ) → has row j ≡ holds set.now j) }
{
    let mut row = BitRow::with_len(alloc, len)?;
    for j in set {
        row.set(*j as usize);
    }
    Ok(row)
}

// Puts a row at the end of a table.
fn push_row(table: &mut BitTable, row: BitRow) -> Result<(), AllocError>
    requires { length row ≡ table.old.row_len }
    ensures rows { OnOk result (table.new.rows ≡ table.old.rows ++ row ∷ []) }
    ensures row_len { table.new.row_len ≡ table.old.row_len }
{
    match table.push(row) {
        Ok(()) => Ok(()),
        Err(_row) => Err(AllocError),
    }
}

/// A row of bits of length `len` for each set.
pub(crate) fn table_of(alloc: Global, sets: &[Vec<u32>], len: usize) -> Result<BitTable, AllocError>
    requires { AreBelow len (rows_of sets.now) }
    ensures row_len { IfOk result (λ table. table.row_len ≡ len) }
    ensures rows { IfOk result (IsTableOf (rows_of sets.now)) }
{
    let mut table = BitTable::new(alloc, len);
    for set in sets {
        push_row(&mut table, row_of(alloc, set, len)?)?;
    }
    Ok(table)
}

// Sets the bit at a place in the rows of the indices of a set.
fn mark(rows: &mut [BitRow], set: &[u32], place: usize)
    requires below { All (λ j. j < length rows.old) set.now }
    requires lengths { All (λ row. place < length row) rows.old }
    ensures lengths { KeepLengths rows.old rows.new }
    ensures marked { IsMarked set.now place rows.old rows.new }
{
    for j in set {
        rows[*j as usize].set(place);
    }
}

/// For each index below `len` the places of the sets that hold it, as a row of bits.
pub(crate) fn columns_of(
    alloc: Global,
    sets: &[Vec<u32>],
    len: usize,
) -> Result<Vec<BitRow>, AllocError>
    requires { AreBelow len (rows_of sets.now) }
    ensures lengths { IfOk result (λ rows. HaveLength (length sets.now) rows.items) }
    ensures columns { IfOk result (λ rows. AreColumnsOf len (rows_of sets.now) rows.items) }
{
    let mut rows = Vec::new(alloc);
    for _index in 0..len {
        rows.push(BitRow::with_len(alloc, sets.len())?)?;
    }
    for (place, set) in sets.iter().enumerate() {
        mark(&mut rows, set, place);
    }
    Ok(rows)
}
