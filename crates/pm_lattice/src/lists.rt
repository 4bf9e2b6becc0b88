// Faces as lists of indices, rank by rank, and lists of indices as rows of bits.
ghost use Rattle.pm_bits.specs.Sets.{has, members};
ghost use Rattle.pm_geom.specs.Graphs.{holds, sets_of};
ghost use Rattle.pm_lattice.specs.Closures.{bit_sets};
ghost use Rattle.pm_lattice.specs.Ranks.{levels_to};
ghost use Rattle.pm_types.specs.Lists.{lists_of};
ghost use Rattle.std.specs.List.{All};
ghost use Rattle.std.specs.Prelude.{ℕ, ◌+◌, ◌^◌, ◌<◌, ◌≡◌, IfOk, [], length, map};

use pm_bits::{BitRow, BitTable};
use pm_types::Sets;
use std::alloc::{AllocError, Global};

// So many ranks without a face.
fn empty_levels(alloc: Global, count: usize) -> Result<Vec<Vec<Vec<u32>>>, AllocError>
    ensures len { IfOk result (λ levels. length levels.items ≡ count) }
    ensures empty { IfOk result (λ levels. All (λ level. lists_of level ≡ []) levels.items) }
{
    let mut levels = Vec::with_capacity(alloc, count)?;
    for _rank in 0..count {
        levels.push(Vec::new(alloc))?;
    }
    Ok(levels)
}

/// The faces of each rank up to the top one, as lists of their places.
pub(crate) fn by_rank(
    alloc: Global,
    faces: &[BitRow],
    ranks: &[usize],
    top: usize,
) -> Result<Vec<Vec<Vec<u32>>>, AllocError>
    requires as_many { length ranks.now ≡ length faces.now }
    requires few { All (λ f. length f < 2 ^ 32) faces.now }
    requires top { top < 2 ^ 32 }
    ensures { IfOk result (λ levels. map lists_of levels.items ≡ levels_to top faces.now ranks.now) }
{
    let mut levels = empty_levels(alloc, top + 1)?;
    for (place, face) in faces.iter().enumerate() {
        let rank = ranks[place];
        if rank <= top {
            levels[rank].push(face.members(alloc)?)?;
        }
    }
    Ok(levels)
}

/// The faces, each as a list of its places.
pub(crate) fn member_lists(alloc: Global, faces: &[BitRow]) -> Result<Vec<Vec<u32>>, AllocError>
    requires { All (λ f. length f < 2 ^ 32) faces.now }
    ensures { IfOk result (λ lists. lists_of lists ≡ map members faces.now) }
{
    let mut lists = Vec::new(alloc);
    for face in faces {
        lists.push(face.members(alloc)?)?;
    }
    Ok(lists)
}

// The row of bits of a list of indices.
fn row_of(alloc: Global, set: &[u32], len: usize) -> Result<BitRow, AllocError>
    requires { All (λ j. j < len) set.now }
    ensures len { IfOk result (λ row. length row ≡ len) }
    ensures members { IfOk result (λ row. (j : ℕ) → has row j ≡ holds set.now j) }
{
    let mut row = BitRow::with_len(alloc, len)?;
    for j in set {
        row.set(*j as usize);
    }
    Ok(row)
}

/// The rows of bits of sets of indices.
pub(crate) fn table_of(alloc: Global, s: &Sets) -> Result<BitTable, AllocError>
    requires { All (λ row. All (λ j. j < s.now.cols) row) s.now.rows }
    ensures len { IfOk result (λ table. table.row_len ≡ s.now.cols) }
    ensures few { IfOk result (λ table. table.row_len < 2 ^ 32) }
    ensures rows { IfOk result (λ table. bit_sets table.rows ≡ sets_of s.now.rows) }
{
    let len = s.cols() as usize;
    let mut table = BitTable::new(alloc, len);
    for set in s.rows() {
        let Ok(()) = table.push(row_of(alloc, set, len)?) else {
            return Err(AllocError);
        };
    }
    Ok(table)
}
