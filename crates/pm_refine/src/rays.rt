// All rays of intersections, and for each intersection the places of its rays.

ghost use Rattle.pm_vector.specs.Rows.{HasCols};
ghost use Rattle.pm_laws_normal_fans.specs.Refinements.{AreAllRays};
ghost use Rattle.pm_refine.specs.CutRows.{intersection_of};
ghost use Rattle.pm_refine.specs.RaySets.{places_from};
ghost use Rattle.std.specs.Prelude.{All, IfOk, map, ◌≡◌, ℕ};

use crate::refinement::Intersection;
use pm_dd::add_copies;
use pm_vector::Ints;
use std::alloc::{AllocError, Global};

/// The rays of all intersections, each once, in lexicographic order.
pub(crate) fn all_rays(alloc: Global, cones: &[Intersection]) -> Result<Vec<Ints>, AllocError>
    ensures { IfOk result (λ v. (n : ℕ) → All (λ a. HasCols n a.rays) (map intersection_of cones.now)
        → AreAllRays (map intersection_of cones.now) v.items) }
{
    let mut all = Vec::new(alloc);
    for cone in cones {
        all = add_copies(alloc, &cone.rays, all)?;
    }
    all.sort()?;
    all.dedup();
    Ok(all)
}

/// The places at which the rays stand among all.
fn ray_set(alloc: Global, rays: &[Ints], all: &[Ints]) -> Result<Vec<usize>, AllocError>
    ensures { IfOk result (λ v. v.items ≡ places_from 0 rays.now all.now) }
{
    let mut places = Vec::new(alloc);
    for (j, row) in all.iter().enumerate() {
        if rays.contains(row) {
            places.push(j)?;
        }
    }
    Ok(places)
}

/// For each intersection the places at which its rays stand among all.
pub(crate) fn ray_sets(
    alloc: Global,
    cones: &[Intersection],
    all: &[Ints],
) -> Result<Vec<Vec<usize>>, AllocError>
    ensures { IfOk result (λ v. map (λ s. s.items) v.items
        ≡ map (λ a. places_from 0 a.rays all.now) (map intersection_of cones.now)) }
{
    let mut sets = Vec::new(alloc);
    for cone in cones {
        sets.push(ray_set(alloc, &cone.rays, all)?)?;
    }
    Ok(sets)
}
