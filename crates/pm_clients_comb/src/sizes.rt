// Sizes that sets of places have: of each place, and of each set.

ghost use Rattle.pm_clients_comb.specs.Sizes.{IsAscending};
ghost use Rattle.pm_relations.specs.Sizes.{has_place, holding, place_sizes, set_sizes};
ghost use Rattle.pm_types.specs.Forms.{is_sets_form};
ghost use Rattle.std.specs.List.{All};
ghost use Rattle.std.specs.Prelude.{IfOk, IsTrue, length, ◌≡◌, ◌≤◌, ◌↔◌};
ghost use Rattle.pm_limits.specs.Limits.{most_rows};

use pm_types::Sets;
use std::alloc::{AllocError, Global};

// Whether an ascending set has the place.
fn has_place(set: &[u32], place: u32) -> bool
    requires { IsAscending set.now }
    ensures { result ≡ has_place place set.now }
{
    set.binary_search(&place).is_ok()
}

// How many of the sets have the place.
fn sets_with(sets: &Sets, place: u32) -> usize
    requires form { IsTrue (is_sets_form sets.now.rows sets.now.cols) }
    ensures count { result ≡ holding sets.now.rows place }
    ensures few { result ≤ most_rows }
{
    let mut count = 0;
    for set in sets.rows() {
        if has_place(set, place) {
            count += 1;
        }
    }
    count
}

// For each place how many of the sets have it.
pub(crate) fn place_sizes(alloc: Global, sets: &Sets) -> Result<Vec<i64>, AllocError>
    requires form { IsTrue (is_sets_form sets.now.rows sets.now.cols) }
    ensures { IfOk result (λ v. v.items ≡ place_sizes sets.now.rows sets.now.cols) }
{
    let mut sizes = Vec::new(alloc);
    for place in 0..sets.cols() {
        sizes.push(sets_with(sets, place) as i64)?;
    }
    Ok(sizes)
}

// How many places each of the sets has.
pub(crate) fn set_sizes(alloc: Global, sets: &Sets) -> Result<Vec<i64>, AllocError>
    ensures { IfOk result (λ v. v.items ≡ set_sizes sets.now.rows) }
{
    let mut sizes = Vec::new(alloc);
    for set in sets.rows() {
        sizes.push(set.len() as i64)?;
    }
    Ok(sizes)
}

// Whether each number is k.
pub(crate) fn all_are(numbers: &[i64], k: i64) -> bool
    ensures { IsTrue result ↔ All (λ z. z ≡ k) numbers.now }
{
    numbers.iter().all(|z| *z == k)
}
