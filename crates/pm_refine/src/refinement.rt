// The common refinement.

ghost use Rattle.pm_vector.specs.Divisors.{IsPrimitive};
ghost use Rattle.pm_vector.specs.Rows.{HasCols};
ghost use Rattle.pm_laws_normal_fans.specs.Fans.{IsFan};
ghost use Rattle.pm_laws_normal_fans.specs.Refinements.{AreAllRays, HasRefinedRays};
ghost use Rattle.pm_refine.specs.CutRows.{AreFacetsOf, AreSmall, IsSmallFan, cut_rows, fan_from, intersection_of};
ghost use Rattle.pm_refine.specs.Fails.{IsConeFail, IsRefineFail, turned};
ghost use Rattle.pm_refine.specs.Refined.{AreRaySets, AreRefined};
ghost use Rattle.std.specs.Prelude.{All, IfErr, IfOk, length, map, ◌<◌, ◌^◌, ◌≤◌};

use crate::cones::facets_of_cones;
use crate::fails::{RefineFail, with_places_turned};
use crate::pairs::kept_of_all;
use crate::rays::{all_rays, ray_sets};
use pm_dd::Facets;
use pm_vector::Ints;
use std::alloc::Global;

/// The intersection of a cone of the first fan and a cone of the second.
#[derive(Drop)]
pub struct Intersection {
    /// The place of the cone of the first fan.
    pub first: u32,
    /// The place of the cone of the second fan.
    pub second: u32,
    /// One row for each extreme ray.
    pub rays: Vec<Ints>,
}

/// The common refinement of two fans.
#[derive(Drop)]
pub struct Refinement {
    /// The maximal intersections in the order of the pairs, of equal ones the first.
    pub cones: Vec<Intersection>,
    /// The echelon basis of the common lineality; without rows where there is no pair.
    pub lineality: Vec<Ints>,
    /// The rays of all maximal intersections, each once, in lexicographic order.
    pub rays: Vec<Ints>,
    /// For each maximal intersection the places of its rays.
    pub sets: Vec<Vec<usize>>,
}

/// The facet rows of the cones of the second fan.
fn facets_of_second(
    alloc: Global,
    cols: usize,
    cones: &[Vec<Ints>],
    lines: &[Ints],
) -> Result<Vec<Facets>, RefineFail>
    requires fan { IsSmallFan cols (fan_from (map (λ c. c.items) cones.now) lines.now) }
    requires few_columns { cols < 2 ^ 30 }
    ensures facets { IfOk result (λ v. AreFacetsOf cols (fan_from (map (λ c. c.items) cones.now) lines.now)
        (map cut_rows v.items)) }
    ensures small { IfOk result (λ v. AreSmall cols (map cut_rows v.items)) }
    ensures failed { IfErr result (λ f. IsConeFail cols (fan_from (map (λ c. c.items) cones.now) lines.now)
        (turned f)) }
{
    match facets_of_cones(alloc, cols, cones, lines) {
        Ok(facets) => Ok(facets),
        Err(fail) => Err(with_places_turned(fail)),
    }
}

/// The common refinement of two fans, which are given by the generators of their cones and by their lineality: the
/// maximal ones among the intersections of a cone of the first and a cone of the second (Ziegler, Lectures on
/// Polytopes, section 7.1).
/// The rays are primitive, with zeros in the pivot columns of the echelon basis of the common lineality.
/// `NotMade` only with a pair of cones and evidence that holds of it: E1, E2 or E5 on the generators of one of them,
/// or on the facet rows of both; or E4 on a ray of their intersection and a facet row of a cone of either fan, or a
/// row of the echelon basis of those that vanish on it.
pub fn common_refinement(
    alloc: Global,
    cols: usize,
    first: &[Vec<Ints>],
    first_lines: &[Ints],
    second: &[Vec<Ints>],
    second_lines: &[Ints],
) -> Result<Refinement, RefineFail>
    requires first { IsSmallFan cols (fan_from (map (λ c. c.items) first.now) first_lines.now) }
    requires second { IsSmallFan cols (fan_from (map (λ c. c.items) second.now) second_lines.now) }
    requires few_columns { cols < 2 ^ 30 }
    ensures refined { IfOk result (λ r. IsFan cols (fan_from (map (λ c. c.items) first.now) first_lines.now)
        → IsFan cols (fan_from (map (λ c. c.items) second.now) second_lines.now)
        → AreRefined cols (fan_from (map (λ c. c.items) first.now) first_lines.now) (fan_from
        (map (λ c. c.items) second.now) second_lines.now) r.lineality.items
        (map intersection_of r.cones.items)) }
    ensures rays { IfOk result (λ r. AreAllRays (map intersection_of r.cones.items) r.rays.items) }
    ensures orders { IfOk result (λ r. IsFan cols (fan_from (map (λ c. c.items) first.now) first_lines.now)
        → IsFan cols (fan_from (map (λ c. c.items) second.now) second_lines.now)
        → HasRefinedRays cols (fan_from (map (λ c. c.items) first.now) first_lines.now) (fan_from
        (map (λ c. c.items) second.now) second_lines.now) r.lineality.items
        (map intersection_of r.cones.items) r.rays.items) }
    ensures cols { IfOk result (λ r. HasCols cols r.rays.items × HasCols cols r.lineality.items) }
    ensures primitive { IfOk result (λ r. All IsPrimitive r.rays.items) }
    ensures few_lines { IfOk result (λ r. length r.lineality.items ≤ cols) }
    ensures sets { IfOk result (λ r. AreRaySets r.rays.items (map intersection_of r.cones.items)
        (map (λ s. s.items) r.sets.items)) }
    ensures failed { IfErr result
        (IsRefineFail cols (fan_from (map (λ c. c.items) first.now) first_lines.now)
        (fan_from (map (λ c. c.items) second.now) second_lines.now)) }
{
    if first.is_empty() || second.is_empty() {
        return Ok(Refinement {
            cones: Vec::new(alloc),
            lineality: Vec::new(alloc),
            rays: Vec::new(alloc),
            sets: Vec::new(alloc),
        });
    }
    let firsts = facets_of_cones(alloc, cols, first, first_lines)?;
    let seconds = facets_of_second(alloc, cols, second, second_lines)?;
    let kept = kept_of_all(alloc, cols, &firsts, &seconds)?;
    let rays = all_rays(alloc, &kept.cones)?;
    let sets = ray_sets(alloc, &kept.cones, &rays)?;
    Ok(Refinement {
        cones: kept.cones,
        lineality: kept.lineality,
        rays,
        sets,
    })
}
