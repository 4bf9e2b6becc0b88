// The fan of an object, as lists of rows.

ghost use Rattle.pm_fraction.specs.FractionRows.{ArePrimitiveRowsOf};
ghost use Rattle.pm_object.specs.Known.{IsKnown, cols_at};
ghost use Rattle.pm_object_type.specs.declared.object_type.ObjectType.TheVariants.{Fan};
ghost use Rattle.pm_props.specs.declared.property.PropId.TheVariants.{LinealitySpace, MaximalCones, Vertices};
ghost use Rattle.pm_refine.specs.CutRows.{IsSmallFan, fan_from};
ghost use Rattle.pm_refine.specs.ObjectFans.{IsFanOfObject, IsReadableFan, are_of_rays, is_fan, rays_at, refine_reads, refine_refusal};
ghost use Rattle.pm_types.specs.Forms.{HasPrimitiveRow};
ghost use Rattle.std.specs.Prelude.{All, IfOk, None, Some, length, map, true, ◌<◌, ◌≡◌, ◌≤◌};
ghost use Rattle.pm_limits.specs.Limits.{most_rows};

use pm_fraction::{Matrix, RowsFail};
use pm_object::{Condition, Object, cols_at, matrix_at, sets_at};
use pm_types::{ObjectType, PropId, Sets, Value};
use pm_vector::Ints;
use std::alloc::{AllocError, Global};

/// The cones of a fan by their generators, and its lines.
#[derive(Drop)]
pub(crate) struct FanRows {
    pub(crate) cones: Vec<Vec<Ints>>,
    pub(crate) lines: Vec<Ints>,
}

fn is_fan(o: &Object) -> bool
    ensures { result ≡ is_fan o.now.state.of }
{
    match o.of() {
        ObjectType::Fan => true,
        ObjectType::Polytope => false,
        ObjectType::Cone => false,
    }
}

// Whether the sets are of places of its rays.
fn are_of_rays(o: &Object) -> bool
    requires { IsKnown refine_reads o.now.state }
    ensures { result ≡ are_of_rays o.now.state }
{
    sets_at(o, PropId::MaximalCones).cols() as usize == matrix_at(o, PropId::Vertices).rows()
}

/// The first condition that fails, but that of the rows of the new fan.
pub(crate) fn refine_refusal(a: &Object, b: &Object) -> Option<Condition>
    requires first { IsReadableFan a.now.state }
    requires second { IsReadableFan b.now.state }
    ensures { result ≡ refine_refusal a.now.state b.now.state }
{
    if !(is_fan(a) && is_fan(b)) {
        return Some(Condition::OfType);
    }
    if cols_at(a) != cols_at(b) {
        return Some(Condition::Columns);
    }
    if !(are_of_rays(a) && are_of_rays(b)) {
        return Some(Condition::Columns);
    }
    None
}

/// The primitive rows of a matrix.
fn primitive_rows(alloc: Global, matrix: &Matrix) -> Result<Vec<Ints>, AllocError>
    requires few { length matrix.now.rows ≤ most_rows }
    requires stay { All HasPrimitiveRow matrix.now.rows }
    ensures { IfOk result (λ v. ArePrimitiveRowsOf matrix.now.rows v.items) }
{
    match matrix.to_primitive_rows(alloc) {
        Ok(rows) => Ok(rows),
        Err(RowsFail::Memory) => Err(AllocError),
        Err(RowsFail::Wide { .. }) => unreachable!(),
    }
}

/// The rays at these places.
fn cone_of_rays(alloc: Global, rays: &[Ints], set: &[u32]) -> Result<Vec<Ints>, AllocError>
    requires { All (λ j. j < length rays.now) set.now }
    ensures { IfOk result (λ v. v.items ≡ rays_at rays.now set.now) }
{
    let mut rows = Vec::new(alloc);
    for place in set {
        rows.push(rays[*place as usize].copy(alloc)?)?;
    }
    Ok(rows)
}

/// The rays of each cone.
fn cones_of_rays(
    alloc: Global,
    rays: &[Ints],
    sets: &[Vec<u32>],
) -> Result<Vec<Vec<Ints>>, AllocError>
    requires { All (λ s. All (λ j. j < length rays.now) s) (map (λ s. s.items) sets.now) }
    ensures { IfOk result (λ v. map (λ c. c.items) v.items
        ≡ map (rays_at rays.now) (map (λ s. s.items) sets.now)) }
{
    let mut cones = Vec::new(alloc);
    for set in sets {
        cones.push(cone_of_rays(alloc, rays, set)?)?;
    }
    Ok(cones)
}

/// The fan of an object.
pub(crate) fn fan_rows(alloc: Global, o: &Object) -> Result<FanRows, AllocError>
    requires known { IsKnown refine_reads o.now.state }
    requires rays { are_of_rays o.now.state ≡ true }
    ensures fan { IfOk result (λ f.
        IsFanOfObject o.now.state (fan_from (map (λ c. c.items) f.cones.items) f.lines.items)) }
    ensures small { IfOk result (λ f.
        IsSmallFan (cols_at o.now.state) (fan_from (map (λ c. c.items) f.cones.items) f.lines.items)) }
{
    let rays = primitive_rows(alloc, matrix_at(o, PropId::Vertices))?;
    let lines = primitive_rows(alloc, matrix_at(o, PropId::LinealitySpace))?;
    let cones = cones_of_rays(alloc, &rays, sets_at(o, PropId::MaximalCones).rows())?;
    Ok(FanRows { cones, lines })
}
