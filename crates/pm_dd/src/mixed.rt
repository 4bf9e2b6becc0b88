// Orders of the rows that keep the cones on the way small where the stated one often does not.

ghost use Rattle.pm_dd.specs.Mixed.{HaveSameRows};
ghost use Rattle.std.specs.Prelude.{IfOk, length, ◌≤◌};

use crate::leading::leading_pairs;
use crate::parts::add_copies;
use pm_vector::{Ints, copies};
use std::alloc::{AllocError, Global};

/// The rows, taken alternately from both ends.
fn from_both_ends(alloc: Global, rows: &[Ints]) -> Result<Vec<Ints>, AllocError>
    ensures same { IfOk result (λ v. HaveSameRows rows.now v.items) }
    ensures count { IfOk result (λ v. length v.items ≤ length rows.now) }
{
    let mut made = Vec::new(alloc);
    for i in 0..rows.len().div_ceil(2) {
        let last = rows.len() - 1 - i;
        made.push(rows[i].copy(alloc)?)?;
        if last > i {
            made.push(rows[last].copy(alloc)?)?;
        }
    }
    Ok(made)
}

/// Rows in their order; with `mixes` taken alternately from both ends.
fn arrange(alloc: Global, rows: Vec<Ints>, mixes: bool) -> Result<Vec<Ints>, AllocError>
    ensures same { IfOk result (λ v. HaveSameRows rows.items v.items) }
    ensures count { IfOk result (λ v. length v.items ≤ length rows.items) }
{
    if mixes {
        return from_both_ends(alloc, &rows);
    }
    Ok(rows)
}

/// The rows that lead with their opposites as they stand, and after them the others in lexicographic order; with
/// `mixes` these are taken alternately from both ends.
pub(crate) fn ordered(alloc: Global, rows: &[Ints], mixes: bool) -> Result<Vec<Ints>, AllocError>
    ensures same { IfOk result (λ v. HaveSameRows rows.now v.items) }
    ensures count { IfOk result (λ v. length v.items ≤ length rows.now) }
{
    let lead = 2 * leading_pairs(alloc, rows)?;
    let head = copies(alloc, &rows[..lead])?;
    let mut sorted = copies(alloc, &rows[lead..])?;
    sorted.sort()?;
    let mixed = arrange(alloc, sorted, mixes)?;
    add_copies(alloc, &mixed, head)
}
