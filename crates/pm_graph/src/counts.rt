// The numbers of faces by rank.
ghost use Rattle.pm_bits.specs.Sets.{has};
ghost use Rattle.pm_geom.specs.FaceCounts.{f_of, inner};
ghost use Rattle.pm_graph.specs.Counts.{IsMeetOfColumns};
ghost use Rattle.pm_graph.specs.Slices.{ranks_of};
ghost use Rattle.pm_graph.specs.Tables.{HaveLength};
ghost use Rattle.pm_types.specs.Lists.{lists_of};
ghost use Rattle.std.specs.List.{All};
ghost use Rattle.std.specs.Prelude.{IfOk, IsTrue, length, map, pos, ℕ, ◌<◌, ◌≡◌};

use crate::bits::columns_of;
use pm_bits::BitRow;
use pm_types::Lattice;
use std::alloc::{AllocError, Global};
use std::mem;

// The ranks but the first and the last.
pub(crate) fn inner_ranks(ranks: &[Vec<Vec<u32>>]) -> &[Vec<Vec<u32>>]
    ensures { map lists_of result.now ≡ inner (ranks_of ranks.now) }
{
    if ranks.len() < 2 {
        return &[];
    }
    &ranks[1..ranks.len() - 1]
}

/// How many faces each rank has, but the first rank, of the least face, and the last, of the whole.
pub fn f_vector(alloc: Global, l: &Lattice) -> Result<Vec<i64>, AllocError>
    ensures { IfOk result (λ f. f.items ≡ map pos (f_of l.now)) }
{
    let mut counts = Vec::new(alloc);
    for faces in inner_ranks(l.ranks()) {
        counts.push(faces.len() as i64)?;
    }
    Ok(counts)
}

// The set of all numbers below `len`.
pub(crate) fn full_row(alloc: Global, len: usize) -> Result<BitRow, AllocError>
    ensures len { IfOk result (λ row. length row ≡ len) }
    ensures full { IfOk result (λ row. (j : ℕ) → j < len → IsTrue (has row j)) }
{
    let mut row = BitRow::with_len(alloc, len)?;
    for j in 0..len {
        row.set(j);
    }
    Ok(row)
}

// Makes `meet`, which has all places as it is handed in, the meet of the columns of the indices of a face.
// `spare` is a row to work in.
pub(crate) fn meet_columns(columns: &[BitRow], face: &[u32], meet: &mut BitRow, spare: &mut BitRow)
    requires below { All (λ j. j < length columns.now) face.now }
    requires columns_len { HaveLength (length meet.old) columns.now }
    requires spare_len { length spare.old ≡ length meet.old }
    requires full { (j : ℕ) → j < length meet.old → IsTrue (has meet.old j) }
    ensures meet_len { length meet.new ≡ length meet.old }
    ensures spare_len { length spare.new ≡ length meet.old }
    ensures meet { IsMeetOfColumns columns.now face.now meet.new }
{
    for j in face {
        columns[*j as usize].meet_into(meet, spare);
        mem::swap(meet, spare);
    }
}
