// One description of a thing sharpened by the other: the vertices among points, and the facet rows among inequalities.

ghost use Rattle.pm_object_type.specs.declared.object_type.ObjectType.TheVariants.{Polytope};
ghost use Rattle.pm_vector.specs.Cones.{InCone};
ghost use Rattle.pm_vector.specs.Rows.{HasCols};
ghost use Rattle.pm_vector.specs.Bases.{IsEchelonBasis};
ghost use Rattle.pm_vector.specs.Evidence.{unit};
ghost use Rattle.pm_geom.specs.Generators.{AreGenerators};
ghost use Rattle.pm_incidence.specs.Lost.{IfThinWide, ThinningIsLost};
ghost use Rattle.pm_incidence.specs.Thinning.{HasPointAmong, IsThinFail, half_spaces};
ghost use Rattle.pm_types.specs.Right.{CutsOutOf};
ghost use Rattle.std.specs.List.{range_with_len};
ghost use Rattle.std.specs.Prelude.{IfErr, IfOk, IsTrue, List, length, map, true, ◌<◌, ◌^◌, ◌≡◌, ◌≤◌, ◌↔◌, ◌≢◌, ℕ};

use crate::fails::ThinFail;
use crate::thin::thin;
use pm_geom::descriptions::{Facets, Generators};
use pm_geom::unit_row;
use pm_props::ObjectType;
use pm_vector::{Ints, copies};
use std::alloc::{AllocError, Global};

/// The half-spaces of a thing as they are taken: those of a polytope end with the row (1, 0, .., 0).
pub fn half_spaces(
    alloc: Global,
    of: ObjectType,
    cols: usize,
    rows: &[Ints],
) -> Result<Vec<Ints>, AllocError>
    requires { 0 < cols }
    ensures { IfOk result (λ v. v.items ≡ half_spaces of cols rows.now) }
{
    let mut made = copies(alloc, rows)?;
    if of == ObjectType::Polytope {
        made.push(unit_row(alloc, cols, 0)?)?;
    }
    Ok(made)
}

/// The half-spaces of a polytope: its inequalities, and then the row (1, 0, .., 0).
pub fn with_first(
    alloc: Global,
    cols: usize,
    inequalities: Vec<Ints>,
) -> Result<Vec<Ints>, AllocError>
    requires { 0 < cols }
    ensures { IfOk result (λ v. v.items ≡ half_spaces Polytope cols inequalities.items) }
{
    let mut rows = inequalities;
    rows.push(unit_row(alloc, cols, 0)?)?;
    Ok(rows)
}

/// Whether rays generate a thing that is more than {0}, as far as first entries tell: of a polytope one is positive.
pub(crate) fn has_point(of: ObjectType, rays: &[Ints]) -> bool
    ensures { IsTrue result ↔ HasPointAmong of rays.now }
{
    of != ObjectType::Polytope || rays.iter().any(|ray| !ray.is_empty() && ray.get(0) > 0)
}

/// All unit rows: the echelon basis of all rows.
pub fn unit_rows(alloc: Global, cols: usize) -> Result<Vec<Ints>, AllocError>
    ensures { IfOk result (λ v. v.items ≡ map (unit cols) (range_with_len 0 cols)) }
{
    let mut made = Vec::new(alloc);
    for column in 0..cols {
        made.push(unit_row(alloc, cols, column)?)?;
    }
    Ok(made)
}

/// All extreme rays of a thing among rows that generate it, by the half-spaces that cut it out, and the echelon basis
/// of its lineality.
/// The rays are primitive, with zeros in the pivot columns of that basis, each once and in lexicographic order.
/// `Wide` only with evidence: E1 on the rows of the lineality and then the reduced row, E4 on a ray and a half-space;
/// `Many` never.
/// With `wide` it goes on by wide numbers where a number leaves the range. Then it is `Wide` only where the elimination
/// of the rows of the lineality, or the reduction of a row by their basis, is lost by these too: no row in the range is
/// what a step of it makes. The evidence is still that of the range.
pub fn vertices_by_incidence(
    alloc: Global,
    of: ObjectType,
    cols: usize,
    g: &Generators,
    f: &Facets,
    wide: bool,
) -> Result<Generators, ThinFail>
    requires no_fan { of ≢ ObjectType.Fan }
    requires ray_cols { HasCols cols g.now.rays.items }
    requires line_cols { HasCols cols g.now.lineality.items }
    requires facet_cols { HasCols cols f.now.facets.items }
    requires few_rays { length g.now.rays.items < 2 ^ 30 }
    requires few_lines { length g.now.lineality.items < 2 ^ 30 }
    requires some_columns { 0 < cols }
    requires few_columns { cols < 2 ^ 30 }
    ensures generators { IfOk result (λ r. HasCols cols f.now.hull.items
        → CutsOutOf of cols
        (InCone g.now.rays.items g.now.lineality.items) f.now.facets.items f.now.hull.items
        → AreGenerators cols
        (InCone g.now.rays.items g.now.lineality.items) r.rays.items r.lineality.items) }
    ensures cols { IfOk result (λ r. HasCols cols r.rays.items) }
    ensures few { IfOk result (λ r. length r.rays.items ≤ length g.now.rays.items) }
    ensures echelon { IfOk result (λ r. (P : List ℕ) × IsEchelonBasis cols r.lineality.items P) }
    ensures failed { IfErr result (IsThinFail cols g.now.rays.items g.now.lineality.items
        (half_spaces of cols f.now.facets.items)) }
    ensures lost { wide ≡ true → IfErr result (λ e. IfThinWide e (ThinningIsLost cols g.now.rays.items
        g.now.lineality.items (half_spaces of cols f.now.facets.items))) }
{
    if !has_point(of, &g.rays) {
        return Ok(Generators {
            rays: Vec::new(alloc),
            lineality: Vec::new(alloc),
        });
    }
    let cuts = half_spaces(alloc, of, cols, &f.facets)?;
    thin(alloc, cols, &g.rays, &g.lineality, &cuts, wide)
}
