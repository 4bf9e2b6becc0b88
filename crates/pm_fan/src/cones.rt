// The cones of a normal fan, from the sets of vertices that lie on facets.

ghost use Rattle.pm_fan.specs.Fans.{has_members, holders_from};
ghost use Rattle.std.specs.List.{filter, range_with_len};
ghost use Rattle.std.specs.Prelude.{IfOk, length, map, ◌<◌, ◌^◌, ◌≡◌, ◌≤◌};
ghost use Rattle.pm_limits.specs.Limits.{most_rows};

use std::alloc::{AllocError, Global};

/// The places of the sets that have an index, among those that have members.
fn holders(alloc: Global, sets: &[Vec<u32>], index: u32) -> Result<Vec<u32>, AllocError>
    requires { length sets.now ≤ most_rows }
    ensures { IfOk result (λ v.
        v.items ≡ holders_from 0 (filter has_members (map (λ s. s.items) sets.now)) index) }
{
    let mut places = Vec::new(alloc);
    let mut place = 0;
    for set in sets {
        if set.contains(&index) {
            places.push(place)?;
        }
        if !set.is_empty() {
            place += 1;
        }
    }
    Ok(places)
}

/// For each of the first n indices the places of the sets that have it, among those that have members.
pub(crate) fn all_holders(
    alloc: Global,
    sets: &[Vec<u32>],
    n: u32,
) -> Result<Vec<Vec<u32>>, AllocError>
    requires { length sets.now ≤ most_rows }
    ensures { IfOk result (λ v. map (λ s. s.items) v.items
        ≡ map (holders_from 0 (filter has_members (map (λ s. s.items) sets.now))) (range_with_len 0 n)) }
{
    let mut cones = Vec::new(alloc);
    for index in 0..n {
        cones.push(holders(alloc, sets, index)?)?;
    }
    Ok(cones)
}
