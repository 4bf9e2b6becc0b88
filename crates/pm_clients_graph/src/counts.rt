// What graphs show, as the lists of neighbours of their nodes: how many neighbours each node has, and how many edges
// there are.

ghost use Rattle.pm_clients_graph.specs.Degrees.{degrees};
ghost use Rattle.pm_geom.specs.Graphs.{edge_count};
ghost use Rattle.pm_types.specs.Forms.{is_edges_form};
ghost use Rattle.std.specs.Prelude.{IfOk, IsTrue, count_by, length, nat_lt, ◌≡◌, ◌≤◌, ◌^◌};

use pm_types::Sets;
use std::alloc::{AllocError, Global};

/// How many neighbours each node has.
pub(crate) fn degrees(alloc: Global, graph: &Sets) -> Result<Vec<i64>, AllocError>
    ensures { IfOk result (λ v. v.items ≡ degrees graph.now.rows) }
{
    let mut numbers = Vec::new(alloc);
    for row in graph.rows() {
        numbers.push(row.len() as i64)?;
    }
    Ok(numbers)
}

// How many nodes of a list come after this one.
fn later(row: &[u32], node: usize) -> usize
    ensures { result ≡ count_by (nat_lt node) row.now }
{
    let mut count = 0;
    for j in row {
        if node < *j as usize {
            count += 1;
        }
    }
    count
}

/// How many edges there are. Each is counted at its lesser node.
pub(crate) fn edge_count(graph: &Sets) -> usize
    requires form { IsTrue (is_edges_form graph.now.rows) }
    ensures count { result ≡ edge_count graph.now.rows }
    ensures few { result ≤ 2 ^ 22 }
{
    let mut count = 0;
    for (node, row) in graph.rows().iter().enumerate() {
        count += later(row, node);
    }
    count
}
