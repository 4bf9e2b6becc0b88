// The extreme rays among rows that generate.

ghost use Rattle.pm_vector.specs.Cones.{InCone};
ghost use Rattle.pm_vector.specs.Rows.{HasCols};
ghost use Rattle.pm_vector.specs.Bases.{IsEchelonBasis};
ghost use Rattle.pm_geom.specs.Generators.{AreGenerators};
ghost use Rattle.pm_redund.specs.Redundancy.{IsRedundancyFail};
ghost use Rattle.std.specs.Prelude.{IfErr, IfOk, List, length, ℕ, ◌<◌, ◌^◌, ◌≤◌};

use crate::enough::enough_rows;
use crate::support::lineality_of;
use crate::thinned::kept_of;
use pm_geom::descriptions::Generators;
use pm_incidence::{ThinFail, thinned_rows};
use pm_props::ObjectType;
use pm_vector::Ints;
use std::alloc::Global;

/// All extreme rays of the cone that rays and lines generate, and the echelon basis of its lineality. Rays of a
/// polytope are taken as those of a cone are.
/// Where it is asked by wide numbers, these go on where a number leaves the range.
/// The rays are primitive, with zeros in the pivot columns of that basis, each once and in lexicographic order.
/// `Wide` only with evidence: E1 on the rows of the lineality and then the reduced row, E3 on the program of a ray;
/// `Many` never.
pub fn thin_rays(
    alloc: Global,
    _of: ObjectType,
    cols: usize,
    rays: &[Ints],
    lineality: &[Ints],
    wide: bool,
) -> Result<Generators, ThinFail>
    requires ray_cols { HasCols cols rays.now }
    requires line_cols { HasCols cols lineality.now }
    requires few_rays { length rays.now < 2 ^ 30 }
    requires few_lines { length lineality.now < 2 ^ 30 }
    requires few_columns { cols < 2 ^ 30 }
    ensures generators { IfOk result (λ g.
        AreGenerators cols (InCone rays.now lineality.now) g.rays.items g.lineality.items) }
    ensures cols { IfOk result (λ g. HasCols cols g.rays.items) }
    ensures few { IfOk result (λ g. length g.rays.items ≤ length rays.now) }
    ensures echelon { IfOk result (λ g. (P : List ℕ) × IsEchelonBasis cols g.lineality.items P) }
    ensures failed { IfErr result (IsRedundancyFail cols rays.now lineality.now) }
{
    let lines = lineality_of(alloc, cols, rays, lineality, wide)?;
    let enough = enough_rows(alloc, cols, rays, lineality, &lines, wide)?;
    let kept = kept_of(alloc, cols, rays, lineality, &lines.marks, enough, wide)?;
    let thin = thinned_rows(alloc, cols, rays, &kept.basis, &kept.places, wide)?;
    Ok(Generators {
        rays: thin,
        lineality: kept.basis.rows,
    })
}
