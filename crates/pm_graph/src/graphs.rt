// Graphs of index sets.
ghost use Rattle.pm_bits.specs.Table.{OtherContains};
ghost use Rattle.pm_geom.specs.Graphs.{IsGraph};
ghost use Rattle.pm_graph.specs.Edges.{AreAllNeighbours, IsIndexEdge, IsSetEdge, IsTableGraph};
ghost use Rattle.pm_graph.specs.Levels.{AreBelow};
ghost use Rattle.pm_graph.specs.Slices.{rows_of};
ghost use Rattle.std.specs.Prelude.{IfOk, IsTrue, length, ◌<◌, ◌^◌, ◌↔◌, ◌≡◌};

use crate::bits::{columns_of, table_of};
use pm_bits::{BitRow, BitTable};
use pm_types::Sets;
use std::alloc::{AllocError, Global};

// Whether the row at `n` is another than those at `i` and `k`, and contains `s`.
fn is_third(table: &BitTable, s: &BitRow, i: usize, k: usize, n: usize) -> bool
    requires { length s.now ≡ table.now.row_len }
    ensures { IsTrue result → OtherContains table.now s.now i k }
{
    if n >= table.len() {
        return false;
    }
    if n == i {
        return false;
    }
    if n == k {
        return false;
    }
    table.row(n).contains(s)
}

// Whether some row other than those at `i` and `k` contains `s`: those of a list are looked at first.
fn third_contains(table: &BitTable, s: &BitRow, i: usize, k: usize, first: &[u32]) -> bool
    requires { length s.now ≡ table.now.row_len }
    ensures { IsTrue result ↔ OtherContains table.now s.now i k }
{
    for n in first {
        if is_third(table, s, i, k, *n as usize) {
            return true;
        }
    }
    table.other_contains(s, i, k)
}

// The rows that share with the one at `i` what no third row has. `meet` is a row to work in.
fn neighbours(
    alloc: Global,
    table: &BitTable,
    i: usize,
    meet: &mut BitRow,
) -> Result<Vec<u32>, AllocError>
    requires few { length table.now.rows < 2 ^ 32 }
    requires inside { i < length table.now.rows }
    requires meet_len { length meet.old ≡ table.now.row_len }
    ensures meet_len { length meet.new ≡ table.now.row_len }
    ensures neighbours { IfOk result (λ list. AreAllNeighbours table.now i list.items) }
{
    let mut list = Vec::new(alloc);
    for k in 0..table.len() {
        if k == i {
            continue;
        }
        table.row(i).meet_into(table.row(k), meet);
        if third_contains(table, meet, i, k, &list) {
            continue;
        }
        list.push(k as u32)?;
    }
    Ok(list)
}

// The graph of the rows of a table, as lists of neighbours.
fn graph_of_table(alloc: Global, table: &BitTable) -> Result<Vec<Vec<u32>>, AllocError>
    requires { length table.now.rows < 2 ^ 32 }
    ensures { IfOk result (λ rows. IsTableGraph table.now (rows_of rows.items)) }
{
    let mut meet = BitRow::with_len(alloc, table.row_len())?;
    let mut rows = Vec::new(alloc);
    for i in 0..table.len() {
        rows.push(neighbours(alloc, table, i, &mut meet)?)?;
    }
    Ok(rows)
}

/// The graph of the indices of sets: two are joined where they alone are an intersection of sets, that is, where no
/// third index is in each set that has both. Row i holds the neighbours of i, ascending. Where the sets are those of
/// the rays in the facets of a cone, it is the graph of the rays (`law_right_sources_give_graphs`).
pub fn graph_of_sets(alloc: Global, s: &Sets) -> Result<Sets, AllocError>
    requires { AreBelow s.now.cols s.now.rows }
    ensures graph { IfOk result (λ g. IsGraph s.now.cols (IsIndexEdge s.now) g.rows) }
    ensures cols { IfOk result (λ g. g.cols ≡ s.now.cols) }
{
    let columns = columns_of(alloc, s.rows(), s.cols() as usize)?;
    let table = BitTable::from_rows(alloc, columns, s.rows().len())?;
    let rows = graph_of_table(alloc, &table)?;
    Ok(Sets::from_vec(rows, s.cols()))
}

/// The graph of sets: two are joined where no third set has all that they share. Row i holds the neighbours of the
/// set at i, ascending. Where the sets are those of the rays in the facets of a cone, it is the graph of the facets
/// (`law_right_sources_give_graphs`).
pub fn dual_graph(alloc: Global, s: &Sets) -> Result<Sets, AllocError>
    requires below { AreBelow s.now.cols s.now.rows }
    requires few { length s.now.rows < 2 ^ 32 }
    ensures graph { IfOk result (λ g. IsGraph (length s.now.rows) (IsSetEdge s.now.rows) g.rows) }
    ensures cols { IfOk result (λ g. g.cols ≡ length s.now.rows) }
{
    let table = table_of(alloc, s.rows(), s.cols() as usize)?;
    let rows = graph_of_table(alloc, &table)?;
    Ok(Sets::from_vec(rows, table.len() as u32))
}
