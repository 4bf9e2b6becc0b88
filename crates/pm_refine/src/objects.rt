// The common refinement of the fans of two objects.

ghost use Rattle.pm_vector.specs.Divisors.{IsPrimitive};
ghost use Rattle.pm_vector.specs.Numbers.{InRange};
ghost use Rattle.pm_vector.specs.Rows.{HasCols};
ghost use Rattle.pm_files.specs.Views.{file_of};
ghost use Rattle.pm_object.specs.Known.{IsKnown, cols_at};
ghost use Rattle.pm_refine.specs.CutRows.{intersection_of};
ghost use Rattle.pm_refine.specs.ObjectFans.{IsReadableFan, are_of_rays, refine_reads, refine_refusal};
ghost use Rattle.pm_refine.specs.ObjectRefinements.{HaveForms, IsRefinementFile, IsRefinementOf, IsRefinementRefused, IsShownByFans, fan_given, refined_values};
ghost use Rattle.std.specs.Prelude.{All, IfErr, IfOk, None, OnOk, length, map, true, ◌<◌, ◌^◌, ◌≡◌, ◌≤◌};
ghost use Rattle.pm_limits.specs.Limits.{most_columns, most_rows};

use crate::fails::RefineFail;
use crate::object_fails::{RefinementFail, as_refinement_fail};
use crate::object_fans::{fan_rows, refine_refusal};
use crate::refinement::{Refinement, common_refinement};
use pm_files::FileObject;
use pm_limits::MOST_ROWS;
use pm_object::{Condition, Object, cols_at};
use pm_types::{ObjectType, PropId, PropSet, Sets, Value, matrix_over_one};
use std::alloc::{AllocError, Global};

/// The refinement of the fans of two objects.
fn refinement_of(alloc: Global, a: &Object, b: &Object) -> Result<Refinement, RefineFail>
    requires first { IsKnown refine_reads a.now.state }
    requires second { IsKnown refine_reads b.now.state }
    requires rays { are_of_rays a.now.state ≡ true }
    requires second_rays { are_of_rays b.now.state ≡ true }
    requires columns { cols_at b.now.state ≡ cols_at a.now.state }
    ensures refinement { IfOk result (λ r. IsRefinementOf a.now.state b.now.state r.lineality.items
        (map intersection_of r.cones.items) r.rays.items (map (λ s. s.items) r.sets.items)) }
    ensures cols { IfOk result (λ r. HasCols (cols_at a.now.state) r.rays.items
        × HasCols (cols_at a.now.state) r.lineality.items) }
    ensures primitive { IfOk result (λ r. All IsPrimitive r.rays.items) }
    ensures few_lines { IfOk result (λ r. length r.lineality.items ≤ cols_at a.now.state) }
    ensures failed { IfErr result (IsShownByFans a.now.state b.now.state) }
{
    let first = fan_rows(alloc, a)?;
    let second = fan_rows(alloc, b)?;
    common_refinement(
        alloc,
        cols_at(a),
        &first.cones,
        &first.lines,
        &second.cones,
        &second.lines,
    )
}

/// A set of places below a count.
fn places(alloc: Global, set: &[usize]) -> Result<Vec<u32>, AllocError>
    requires { All (λ j. j < 2 ^ 32) set.now }
    ensures { IfOk result (λ v. v.items ≡ set.now) }
{
    let mut made = Vec::new(alloc);
    for j in set {
        made.push(*j as u32)?;
    }
    Ok(made)
}

/// The cones, as sets of places of rays.
fn cone_sets(alloc: Global, sets: &[Vec<usize>], rays: u32) -> Result<Sets, AllocError>
    requires { All (λ s. All (λ j. j < 2 ^ 32) s) (map (λ s. s.items) sets.now) }
    ensures { IfOk result (λ s. s ≡ record { rows = map (λ r. r.items) sets.now; cols = rays }) }
{
    let mut made = Vec::new(alloc);
    for set in sets {
        made.push(places(alloc, set)?)?;
    }
    Ok(Sets::from_vec(made, rays))
}

/// The new fan.
fn refined_fan(alloc: Global, n: usize, r: &Refinement) -> Result<FileObject, AllocError>
    requires few { length r.now.rays.items ≤ most_rows }
    requires few_columns { n ≤ most_columns }
    requires rays { HasCols n r.now.rays.items }
    requires lines { HasCols n r.now.lineality.items }
    requires sets { All (λ s. All (λ j. j < 2 ^ 32) s) (map (λ s. s.items) r.now.sets.items) }
    ensures fan { IfOk result (λ f. file_of f
        ≡ fan_given (refined_values n r.now.lineality.items r.now.rays.items
        (map (λ s. s.items) r.now.sets.items))) }
    ensures in_range { IfOk result (λ f. All (All InRange) r.now.rays.items
        × All (All InRange) r.now.lineality.items) }
{
    let rays = matrix_over_one(alloc, &r.rays, n)?;
    let lines = matrix_over_one(alloc, &r.lineality, n)?;
    let cones = cone_sets(alloc, &r.sets, r.rays.len() as u32)?;
    let values = vec![in alloc;
        (PropId::ConeAmbientDim, Value::Int(n as i64)),
        (PropId::Vertices, Value::Mat(rays)),
        (PropId::LinealitySpace, Value::Mat(lines)),
        (PropId::MaximalCones, Value::Sets(cones)),
    ]?;
    Ok(FileObject {
        of: ObjectType::Fan,
        values,
        stored: PropSet::empty(),
        failed: Vec::new(alloc),
        programs: Vec::new(alloc),
        ignored: Vec::new(alloc),
    })
}

/// The common refinement of two fans: as its cones the maximal ones among the intersections of a cone of the first
/// and a cone of the second, in order, of equal ones the first; as its rays all their rays, primitive, with zeros in
/// the pivot columns of the common lineality, in lexicographic order.
/// Each value has its form for a fan of as many columns.
/// These values are right, in some order of the fan's rays and cones, for the common refinement of each two fans for
/// which the values read are right, and for no other (`pm_laws_things`, `law_refinement_is_described`).
/// `NotFit` names the first condition that fails: both objects are fans, they have as many columns, the sets of
/// MAXIMAL_CONES are of their rays; and, where each intersection is made, the new fan has at most `MOST_ROWS` rays
/// and at most `MOST_ROWS` cones.
/// `NotMade` only with a pair of cones and evidence that holds of it: E1, E2 or E5 on the generators of one of them,
/// or on the facet rows of both; or E4 on a ray of their intersection and a facet row of a cone of either fan, or a
/// row of the echelon basis of those that vanish on it.
pub fn refine(alloc: Global, a: &Object, b: &Object) -> Result<FileObject, RefinementFail>
    requires first { IsReadableFan a.now.state }
    requires second { IsReadableFan b.now.state }
    ensures built { IfOk result (λ f. IsRefinementFile a.now.state b.now.state (file_of f)) }
    ensures forms { IfOk result (λ f. HaveForms (cols_at a.now.state) (file_of f)) }
    ensures fits { OnOk result (refine_refusal a.now.state b.now.state ≡ None) }
    ensures refused { IfErr result (IsRefinementRefused a.now.state b.now.state) }
{
    if let Some(condition) = refine_refusal(a, b) {
        return Err(RefinementFail::NotFit(condition));
    }
    let refinement = match refinement_of(alloc, a, b) {
        Ok(refinement) => refinement,
        Err(fail) => return Err(as_refinement_fail(fail)),
    };
    if refinement.rays.len() > MOST_ROWS || refinement.cones.len() > MOST_ROWS {
        return Err(RefinementFail::NotFit(Condition::Rows));
    }
    Ok(refined_fan(alloc, cols_at(a), &refinement)?)
}
