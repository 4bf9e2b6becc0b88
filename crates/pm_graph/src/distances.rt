// Distances in a graph, level by level from one node.
ghost use Rattle.pm_graph.specs.Levels.{AddsUnseen, AreBelow, AreNew, HasGreatestDistance, IsEccentricityIn, KeepsCount, MarksNeighbours, MarksRow, unseen_and_new, unseen_count};
ghost use Rattle.pm_graph.specs.Slices.{rows_of};
ghost use Rattle.std.specs.List.{All};
ghost use Rattle.std.specs.Prelude.{IfOk, OnOk, [], length, ◌<◌, ◌^◌, ◌≡◌};

use pm_types::Sets;
use std::alloc::{AllocError, Global};
use std::mem;

// Marks the nodes of a list, and puts those that were not marked at the end of `next`.
fn visit(row: &[u32], seen: &mut [bool], next: &mut Vec<u32>) -> Result<(), AllocError>
    requires { All (λ j. j < length seen.old) row.now }
    ensures seen { OnOk result (MarksRow row.now seen.old seen.new) }
    ensures next { OnOk result (AddsUnseen row.now seen.old next.old.items next.new.items) }
    ensures count { OnOk result (KeepsCount seen.old next.old.items seen.new next.new.items) }
{
    for node in row {
        let place = *node as usize;
        if !seen[place] {
            next.push(*node)?;
            seen[place] = true;
        }
    }
    Ok(())
}

// Marks the neighbours of the nodes of `front`, and puts those that were not marked into `next`. It ends as
// soon as all are marked; `left` are not as it begins.
fn next_level(
    rows: &[Vec<u32>],
    front: &[u32],
    left: usize,
    seen: &mut [bool],
    next: &mut Vec<u32>,
) -> Result<(), AllocError>
    requires nodes { length seen.old ≡ length rows.now }
    requires neighbours { AreBelow (length rows.now) (rows_of rows.now) }
    requires front { All (λ u. u < length rows.now) front.now }
    requires left { unseen_count seen.old ≡ left }
    requires empty { next.old.items ≡ [] }
    ensures marks { OnOk result (MarksNeighbours (rows_of rows.now) front.now seen.old seen.new) }
    ensures new { OnOk result (AreNew seen.old seen.new next.new.items) }
    ensures count { OnOk result (unseen_and_new seen.new next.new.items ≡ left) }
{
    for node in front {
        if next.len() == left {
            return Ok(());
        }
        visit(&rows[*node as usize], seen, next)?;
    }
    Ok(())
}

// The greatest distance from a node.
fn eccentricity(alloc: Global, rows: &[Vec<u32>], start: u32) -> Result<usize, AllocError>
    requires neighbours { AreBelow (length rows.now) (rows_of rows.now) }
    requires start { start < length rows.now }
    ensures small { IfOk result (λ far. far < length rows.now) }
    ensures farthest { IfOk result (IsEccentricityIn rows.now start) }
{
    let mut seen = vec![in alloc; false; rows.len()]?;
    seen[start as usize] = true;
    let mut left = rows.len() - 1;
    let mut front = vec![in alloc; start]?;
    let mut next = Vec::new(alloc);
    let mut far = 0;
    loop {
        next_level(rows, &front, left, &mut seen, &mut next)?;
        if next.is_empty() {
            return Ok(far);
        }
        left -= next.len();
        far += 1;
        mem::swap(&mut front, &mut next);
        next.clear();
    }
}

/// The greatest distance of two nodes of a graph, as the lists of neighbours of its nodes, that a walk joins: for a
/// connected graph its diameter, and 0 where there are fewer than two nodes. The graphs of the rays and of the facets
/// of a cone are connected, so it is their diameter (`law_greatest_distance_is_diameter`,
/// `law_dual_greatest_distance_is_diameter`).
pub fn diameter(alloc: Global, g: &Sets) -> Result<i64, AllocError>
    requires neighbours { AreBelow (length g.now.rows) g.now.rows }
    requires few { length g.now.rows < 2 ^ 32 }
    ensures { IfOk result (HasGreatestDistance g.now.rows) }
{
    let rows = g.rows();
    let mut greatest = 0;
    for start in 0..rows.len() {
        let far = eccentricity(alloc, rows, start as u32)?;
        if far > greatest {
            greatest = far;
        }
    }
    Ok(greatest as i64)
}
