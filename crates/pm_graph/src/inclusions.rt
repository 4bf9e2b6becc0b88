// How many pairs of faces there are, one included in the other. The places of the faces of the upper rank that hold
// an index are a row of bits, and those of the faces that include a lower face are the meet of the rows of its
// indices.
ghost use Rattle.pm_graph.specs.Counts.{AreSmall, HaveLowerCounts, IsTriangle, f2_matrix, lower_counts, mirrored, mirrored_row, place_count, whole};
ghost use Rattle.pm_graph.specs.Levels.{AreBelow};
ghost use Rattle.pm_graph.specs.Slices.{ranks_of, rows_of};
ghost use Rattle.pm_graph.specs.Tables.{HaveLength};
ghost use Rattle.std.specs.List.{All};
ghost use Rattle.std.specs.Prelude.{IfOk, OnOk, [], length, ◌++◌, ◌<◌, ◌^◌, ◌∷◌, ◌≡◌, ◌≤◌};

use crate::bits::columns_of;
use crate::counts::{full_row, inner_ranks, meet_columns};
use pm_bits::BitRow;
use pm_fraction::{Fraction, Matrix, MatrixFail};
use pm_types::Lattice;
use std::alloc::{AllocError, Global};

// How many pairs there are of a lower face and a place below `count` whose columns have all its indices.
fn inclusions(
    alloc: Global,
    lower: &[Vec<u32>],
    columns: &[BitRow],
    count: usize,
) -> Result<u128, AllocError>
    requires below { AreBelow (length columns.now) (rows_of lower.now) }
    requires columns_len { HaveLength count columns.now }
    ensures count { IfOk result (λ n. n ≡ place_count columns.now count (rows_of lower.now)) }
    ensures small { IfOk result (λ n. n < 2 ^ 126) }
{
    let full = full_row(alloc, count)?;
    let mut meet = BitRow::with_len(alloc, count)?;
    let mut spare = BitRow::with_len(alloc, count)?;
    let mut total = 0;
    for face in lower {
        full.meet_into(&full, &mut meet);
        meet_columns(columns, face, &mut meet, &mut spare);
        total += meet.count() as u128;
    }
    Ok(total)
}

// For each rank up to k how many of its faces there are in faces of rank k, and how many faces rank k has.
fn counts_below(
    alloc: Global,
    ranks: &[Vec<Vec<u32>>],
    k: usize,
    len: usize,
) -> Result<Vec<u128>, AllocError>
    requires within { k < length ranks.now }
    requires below { All (AreBelow len) (ranks_of ranks.now) }
    ensures counts { IfOk result (λ counts. counts.items ≡ lower_counts (ranks_of ranks.now) k) }
    ensures small { IfOk result (λ counts. All (λ n. n < 2 ^ 126) counts.items) }
{
    let upper = &ranks[k];
    let columns = columns_of(alloc, upper, len)?;
    let mut counts = Vec::new(alloc);
    for i in 0..k {
        counts.push(inclusions(alloc, &ranks[i], &columns, upper.len())?)?;
    }
    counts.push(upper.len() as u128)?;
    Ok(counts)
}

// These numbers for each rank.
fn all_counts(
    alloc: Global,
    ranks: &[Vec<Vec<u32>>],
    len: usize,
) -> Result<Vec<Vec<u128>>, AllocError>
    requires { All (AreBelow len) (ranks_of ranks.now) }
    ensures counts { IfOk result (λ rows. HaveLowerCounts ranks.now (rows_of rows.items)) }
    ensures small { IfOk result (λ rows. AreSmall (rows_of rows.items)) }
{
    let mut rows = Vec::new(alloc);
    for k in 0..ranks.len() {
        rows.push(counts_below(alloc, ranks, k, len)?)?;
    }
    Ok(rows)
}

// A number above each index of a face, and at least `bound`.
fn face_bound(face: &[u32], bound: usize) -> usize
    ensures above { All (λ j. j < result) face.now }
    ensures least { bound ≤ result }
{
    let mut bound = bound;
    for j in face {
        bound = bound.max(*j as usize + 1);
    }
    bound
}

// A number above each index of some faces, and at least `bound`.
fn faces_bound(faces: &[Vec<u32>], bound: usize) -> usize
    ensures above { AreBelow result (rows_of faces.now) }
    ensures least { bound ≤ result }
{
    let mut bound = bound;
    for face in faces {
        bound = face_bound(face, bound);
    }
    bound
}

// A number above each index of faces by rank.
fn index_bound(ranks: &[Vec<Vec<u32>>]) -> usize
    ensures { All (AreBelow result) (ranks_of ranks.now) }
{
    let mut bound = 0;
    for faces in ranks {
        bound = faces_bound(faces, bound);
    }
    bound
}

// The number as a fraction.
fn fraction(n: u128) -> Fraction
    requires { n < 2 ^ 126 }
    ensures { result ≡ whole n }
{
    match Fraction::from_whole(n as i128) {
        Ok(fraction) => fraction,
        Err(_wide) => unreachable!(),
    }
}

// The entry (i, k) of the symmetric table.
fn entry(counts: &[Vec<u128>], i: usize, k: usize) -> u128
    requires i_within { i < length counts.now }
    requires k_within { k < length counts.now }
    requires triangle { IsTriangle (rows_of counts.now) }
    ensures value { result ≡ mirrored (rows_of counts.now) i k }
    ensures small { result < 2 ^ 126 }
{
    if k < i { counts[i][k] } else { counts[k][i] }
}

// The row at i of the symmetric table.
fn table_row(alloc: Global, counts: &[Vec<u128>], i: usize) -> Result<Vec<Fraction>, AllocError>
    requires within { i < length counts.now }
    requires triangle { IsTriangle (rows_of counts.now) }
    ensures { IfOk result (λ row. row.items ≡ mirrored_row counts.now i) }
{
    let mut row = Vec::new(alloc);
    for k in 0..counts.len() {
        row.push(fraction(entry(counts, i, k)))?;
    }
    Ok(row)
}

// Puts a row at the end of a matrix.
fn push_row(matrix: &mut Matrix, row: &[Fraction]) -> Result<(), AllocError>
    requires { length row.now ≡ matrix.old.cols }
    ensures cols { OnOk result (matrix.new.cols ≡ matrix.old.cols) }
    ensures rows { OnOk result (matrix.new.rows ≡ matrix.old.rows ++ row.now ∷ []) }
{
    match matrix.push_row(row) {
        Ok(()) => Ok(()),
        Err(MatrixFail::Ragged) => unreachable!(),
        Err(MatrixFail::Memory) => Err(AllocError),
    }
}

/// How many pairs there are of faces of the ranks i + 1 and k + 1, one included in the other, in row i and column k;
/// where i is k, how many faces there are. There is a row and a column for each rank but the first and the last.
pub fn f2_vector(alloc: Global, l: &Lattice) -> Result<Matrix, AllocError>
    ensures { IfOk result (λ matrix. matrix ≡ f2_matrix l.now) }
{
    let ranks = inner_ranks(l.ranks());
    let counts = all_counts(alloc, ranks, index_bound(ranks))?;
    let mut matrix = Matrix::new(alloc, ranks.len());
    for i in 0..ranks.len() {
        let row = table_row(alloc, &counts, i)?;
        push_row(&mut matrix, &row)?;
    }
    Ok(matrix)
}
