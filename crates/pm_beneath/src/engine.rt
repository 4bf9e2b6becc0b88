// The call.

ghost use Rattle.pm_vector.specs.Rows.{HasCols};
ghost use Rattle.pm_beneath.specs.Placed.{IfPlaceWide, IsShownPlace};
ghost use Rattle.pm_dd.specs.Hulls.{AreFacets};
ghost use Rattle.pm_dd.specs.Lost.{PartsAreLost};
ghost use Rattle.pm_geom.specs.Triangulations.{IsTriangulation};
ghost use Rattle.pm_laws_placing.specs.PlacedCells.{IsPlacingTriangulation};
ghost use Rattle.std.specs.Prelude.{IfErr, IfOk, length, map, true, ◌<◌, ◌^◌, ◌≡◌, ◌≤◌};
ghost use Rattle.pm_limits.specs.Limits.{most_rows};

use crate::fails::PlaceFail;
use crate::names::ordered_cells;
use crate::placed::all_placed;
use pm_geom::descriptions::Facets;
use pm_limits::MOST_ROWS;
use pm_vector::Ints;
use std::alloc::Global;

/// The facets of a cone, and its placing triangulation.
#[derive(Drop)]
pub struct Placing {
    /// As `to_facets` answers them.
    pub facets: Facets,
    /// For each cell the places of its rays: each once, rising, in lexicographic order.
    pub simplices: Vec<Vec<u32>>,
}

/// The facet rows of cone(rays) + span(lineality) and the echelon basis of the rows that vanish on it, as `to_facets`
/// answers them, and the placing triangulation of that cone.
///
/// The rows of the double description list, which is the echelon basis of the lineality both ways and then the rays,
/// are taken in the stated order: first those that enlarge the span of the rows before them. The first cell has the
/// rays among these. Each later ray joins the cells' faces on the facets of the cone so far that it is beyond (De
/// Loera, Rambau and Santos, Triangulations, section 4.3).
/// The cells are a triangulation of the cone. Each stands once, as a rising list of places of rays, in lexicographic
/// order; there are at most `MOST_ROWS` of them.
///
/// `Wide` and `Many` come only with evidence on the lineality, or on the double description list, or with the cells
/// of a front that has more than `MOST_ROWS`.
/// With `wide` a step that leaves the range is worked by wide numbers; a refusal is still that of a step by numbers
/// of the range alone, and `Wide` comes only where an elimination by wide numbers is lost, or the cone of some front has
/// an extreme ray out of the range.
pub fn place(
    alloc: Global,
    cols: usize,
    rays: &[Ints],
    lineality: &[Ints],
    wide: bool,
) -> Result<Placing, PlaceFail>
    requires ray_cols { HasCols cols rays.now }
    requires line_cols { HasCols cols lineality.now }
    requires few_rays { length rays.now < 2 ^ 30 }
    requires few_lines { length lineality.now < 2 ^ 30 }
    requires few_columns { cols < 2 ^ 30 }
    ensures facets { IfOk result (λ p.
        AreFacets cols rays.now lineality.now p.facets.facets.items p.facets.hull.items) }
    ensures few_facets { IfOk result (λ p. length p.facets.facets.items ≤ most_rows) }
    ensures cells { IfOk result (λ p.
        IsPlacingTriangulation cols lineality.now rays.now (map (λ s. s.items) p.simplices.items)) }
    ensures triangulation { IfOk result (λ p.
        IsTriangulation cols rays.now lineality.now (map (λ s. s.items) p.simplices.items)) }
    ensures few_cells { IfOk result (λ p. length p.simplices.items ≤ MOST_ROWS) }
    ensures shown { IfErr result (IsShownPlace cols lineality.now rays.now) }
    ensures lost { wide ≡ true → IfErr result (λ f.
        IfPlaceWide f (PartsAreLost cols lineality.now rays.now)) }
{
    let placed = all_placed(alloc, cols, rays, lineality, wide)?;
    let simplices = ordered_cells(alloc, &placed.whole.cells, &placed.taken.places, rays.len())?;
    let whole = placed.whole;
    Ok(Placing {
        facets: Facets {
            facets: whole.facets,
            hull: whole.hull,
        },
        simplices,
    })
}
