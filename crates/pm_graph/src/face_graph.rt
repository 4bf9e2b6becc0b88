// The graph of a lattice of faces: its faces of two elements.
ghost use Rattle.pm_bits.specs.Sets.{members};
ghost use Rattle.pm_graph.specs.Edges.{IsFaceGraph, IsPairAmong, IsPairOf, Joins, whole_of};
ghost use Rattle.pm_graph.specs.Slices.{ranks_of, rows_of};
ghost use Rattle.pm_graph.specs.Tables.{HaveLength};
ghost use Rattle.std.specs.Prelude.{IfOk, length, map, ◌<◌, ◌^◌, ◌≡◌};

use pm_bits::BitRow;
use pm_types::{Lattice, Sets};
use std::alloc::{AllocError, Global};

// Joins the two indices of a face of two indices, where both are below the number of rows.
fn join(rows: &mut [BitRow], face: &[u32])
    requires { HaveLength (length rows.old) rows.old }
    ensures lengths { HaveLength (length rows.old) rows.new }
    ensures joined { Joins (IsPairOf (length rows.old) face.now) rows.old rows.new }
{
    if face.len() != 2 {
        return;
    }
    let first = face[0] as usize;
    let second = face[1] as usize;
    if first == second || first >= rows.len() || second >= rows.len() {
        return;
    }
    rows[first].set(second);
    rows[second].set(first);
}

// Joins the indices of each face of two indices.
fn join_all(rows: &mut [BitRow], faces: &[Vec<u32>])
    requires { HaveLength (length rows.old) rows.old }
    ensures lengths { HaveLength (length rows.old) rows.new }
    ensures joined { Joins (IsPairAmong (length rows.old) (rows_of faces.now)) rows.old rows.new }
{
    for face in faces {
        join(rows, face);
    }
}

// How many indices the whole set has, the first face of the last rank.
fn whole_len(ranks: &[Vec<Vec<u32>>]) -> usize
    ensures { result ≡ length (whole_of (ranks_of ranks.now)) }
{
    if ranks.is_empty() {
        return 0;
    }
    let last = &ranks[ranks.len() - 1];
    if last.is_empty() { 0 } else { last[0].len() }
}

// The members of each row.
fn member_lists(alloc: Global, rows: &[BitRow], len: usize) -> Result<Vec<Vec<u32>>, AllocError>
    requires lengths { HaveLength len rows.now }
    requires few { len < 2 ^ 32 }
    ensures { IfOk result (λ lists. rows_of lists.items ≡ map members rows.now) }
{
    let mut lists = Vec::new(alloc);
    for row in rows {
        lists.push(row.members(alloc)?)?;
    }
    Ok(lists)
}

/// The graph of the places of the whole set, the first face of the last rank: two are joined where they are a face of
/// two elements. Row i holds the neighbours of i, ascending. Where the lists are all faces of a cone by rank, it is
/// the graph of the rays (`law_right_sources_give_graphs`).
pub fn graph_of_faces(alloc: Global, l: &Lattice) -> Result<Sets, AllocError>
    requires { length (whole_of l.now) < 2 ^ 32 }
    ensures graph { IfOk result (λ g. IsFaceGraph l.now g.rows) }
    ensures cols { IfOk result (λ g. g.cols ≡ length (whole_of l.now)) }
{
    let len = whole_len(l.ranks());
    let mut rows = Vec::new(alloc);
    for _node in 0..len {
        rows.push(BitRow::with_len(alloc, len)?)?;
    }
    for faces in l.ranks() {
        join_all(&mut rows, faces);
    }
    let lists = member_lists(alloc, &rows, len)?;
    Ok(Sets::from_vec(lists, len as u32))
}
