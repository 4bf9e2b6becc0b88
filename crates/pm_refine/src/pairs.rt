// The intersections of all pairs of cones, of which the maximal ones are kept.

ghost use Rattle.pm_vector.specs.Rows.{Row};
ghost use Rattle.pm_geom.specs.Generators.{AreGenerators};
ghost use Rattle.pm_dd.specs.HullRefusals.{IsShownOnParts};
ghost use Rattle.pm_laws_normal_fans.specs.Refinements.{InHalfSpaces};
ghost use Rattle.pm_refine.specs.CutRows.{AreSmall, IsSmall, cut_rows, intersection_of};
ghost use Rattle.pm_refine.specs.Fails.{IsPairFail, IsStepFail};
ghost use Rattle.pm_refine.specs.Steps.{AreKeptBefore};
ghost use Rattle.std.specs.Prelude.{IfErr, IfOk, length, map, suc, ◌++◌, ◌<◌, ◌^◌, ◌≡◌};

use crate::fails::{RefineFail, not_made};
use crate::keep::keep;
use crate::refinement::Intersection;
use pm_dd::{DdFail, Facets, Generators, add_copies, to_generators};
use pm_object_type::ObjectType;
use pm_vector::{Ints, copies};
use std::alloc::{AllocError, Global};

/// The maximal ones among the intersections so far, and their lineality.
#[derive(Drop)]
pub(crate) struct Kept {
    /// In the order of the pairs.
    pub(crate) cones: Vec<Intersection>,
    /// Its echelon basis; without rows where there is no pair.
    pub(crate) lineality: Vec<Ints>,
}

/// The rows of two lists, one after the other.
fn joined(alloc: Global, first: &[Ints], second: &[Ints]) -> Result<Vec<Ints>, AllocError>
    ensures { IfOk result (λ v. v.items ≡ first.now ++ second.now) }
{
    let made = copies(alloc, first)?;
    add_copies(alloc, second, made)
}

/// The generators of the cone that the facet rows of two cones cut out.
fn cut_out_by_both(
    alloc: Global,
    cols: usize,
    first: &Facets,
    second: &Facets,
) -> Result<Generators, DdFail>
    requires first { IsSmall cols (cut_rows first.now) }
    requires second { IsSmall cols (cut_rows second.now) }
    requires few_columns { cols < 2 ^ 30 }
    ensures generators { IfOk result (λ g.
        AreGenerators cols (InHalfSpaces (first.now.facets.items ++ second.now.facets.items)
        (first.now.hull.items ++ second.now.hull.items)) g.rays.items g.lineality.items) }
    ensures shown { IfErr result (IsShownOnParts cols (first.now.hull.items ++ second.now.hull.items)
        (first.now.facets.items ++ second.now.facets.items)) }
{
    let rows = joined(alloc, &first.facets, &second.facets)?;
    let equations = joined(alloc, &first.hull, &second.hull)?;
    to_generators(alloc, ObjectType::Cone, cols, &rows, &equations)
}

/// The generators of the intersection of two cones, which are given by their facet rows and places.
fn intersection(
    alloc: Global,
    cols: usize,
    first: &Facets,
    second: &Facets,
    i: u32,
    j: u32,
) -> Result<Generators, RefineFail>
    requires first { IsSmall cols (cut_rows first.now) }
    requires second { IsSmall cols (cut_rows second.now) }
    requires few_columns { cols < 2 ^ 30 }
    ensures generators { IfOk result (λ g.
        AreGenerators cols (InHalfSpaces (first.now.facets.items ++ second.now.facets.items)
        (first.now.hull.items ++ second.now.hull.items)) g.rays.items g.lineality.items) }
    ensures failed { IfErr result (IsPairFail cols (cut_rows first.now) (cut_rows second.now) i j) }
{
    match cut_out_by_both(alloc, cols, first, second) {
        Ok(found) => Ok(found),
        Err(fail) => Err(not_made(i, j, fail)),
    }
}

/// What is kept after the pairs of one cone of the first fan with each of the second.
fn with_cone(
    alloc: Global,
    cols: usize,
    firsts: &[Facets],
    seconds: &[Facets],
    i: usize,
    before: Kept,
) -> Result<Kept, RefineFail>
    requires firsts { AreSmall cols (map cut_rows firsts.now) }
    requires seconds { AreSmall cols (map cut_rows seconds.now) }
    requires few_firsts { length firsts.now < 2 ^ 30 }
    requires few_seconds { length seconds.now < 2 ^ 30 }
    requires few_columns { cols < 2 ^ 30 }
    requires within { i < length firsts.now }
    requires before { AreKeptBefore cols (map cut_rows firsts.now)
        (map cut_rows seconds.now) i 0 before.lineality.items (map intersection_of before.cones.items) }
    ensures kept { IfOk result (λ k. AreKeptBefore cols (map cut_rows firsts.now) (map cut_rows seconds.now)
        (suc i) 0 k.lineality.items (map intersection_of k.cones.items)) }
    ensures failed { IfErr result (IsStepFail cols (map cut_rows firsts.now) (map cut_rows seconds.now)) }
{
    let mut cones = before.cones;
    let mut lineality = before.lineality;
    for j in 0..seconds.len() {
        let found = intersection(alloc, cols, &firsts[i], &seconds[j], i as u32, j as u32)?;
        let new = Intersection {
            first: i as u32,
            second: j as u32,
            rays: found.rays,
        };
        cones = keep(alloc, cols, cones, new, firsts, seconds)?;
        lineality = found.lineality;
    }
    Ok(Kept { cones, lineality })
}

/// What is kept after all pairs of a cone of the first fan and a cone of the second.
pub(crate) fn kept_of_all(
    alloc: Global,
    cols: usize,
    firsts: &[Facets],
    seconds: &[Facets],
) -> Result<Kept, RefineFail>
    requires firsts { AreSmall cols (map cut_rows firsts.now) }
    requires seconds { AreSmall cols (map cut_rows seconds.now) }
    requires few_firsts { length firsts.now < 2 ^ 30 }
    requires few_seconds { length seconds.now < 2 ^ 30 }
    requires few_columns { cols < 2 ^ 30 }
    ensures kept { IfOk result (λ k. AreKeptBefore cols (map cut_rows firsts.now) (map cut_rows seconds.now)
        (length firsts.now) 0 k.lineality.items (map intersection_of k.cones.items)) }
    ensures failed { IfErr result (IsStepFail cols (map cut_rows firsts.now) (map cut_rows seconds.now)) }
{
    let mut kept = Kept {
        cones: Vec::new(alloc),
        lineality: Vec::new(alloc),
    };
    for i in 0..firsts.len() {
        kept = with_cone(alloc, cols, firsts, seconds, i, kept)?;
    }
    Ok(kept)
}
