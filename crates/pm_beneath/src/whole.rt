// The facets and the cells of all rows, on a list and its arrangement.

ghost use Rattle.pm_vector.specs.Rows.{HasCols};
ghost use Rattle.pm_beneath.specs.Runs.{IfRunWide, IsListFail, IsRunTo};
ghost use Rattle.pm_dd.specs.Arrangement.{IsArrangement};
ghost use Rattle.pm_dd.specs.Lost.{DescriptionIsLost, IfWide};
ghost use Rattle.pm_dd.specs.Refusals.{IsEliminationFail};
ghost use Rattle.pm_elim.specs.Lost.{IsLostOnExtended};
ghost use Rattle.pm_vector.specs.NullSpaces.{IsNullBasis};
ghost use Rattle.pm_geom.specs.Cones.{CutOut};
ghost use Rattle.pm_geom.specs.Generators.{AreGenerators};
ghost use Rattle.pm_geom.specs.Graphs.{IsAscending};
ghost use Rattle.std.specs.Prelude.{All, IfErr, IfOk, List, length, map, true, ◌<◌, ◌^◌, ◌≡◌, ◌≤◌, ℕ};
ghost use Rattle.pm_limits.specs.Limits.{most_rows};

use crate::run::{RunFail, all_cells};
use pm_dd::DdFail;
use pm_dd::first::{first_rows, start_rays};
use pm_elim::null_space_by;
use pm_limits::MOST_ROWS;
use pm_vector::Ints;
use std::alloc::Global;

/// The facet rows of a cone in canonical form and lexicographic order, the echelon basis of the rows that vanish, and
/// the cells of all rows.
#[derive(Drop)]
pub(crate) struct Whole {
    pub facets: Vec<Ints>,
    pub hull: Vec<Ints>,
    pub cells: Vec<Vec<u32>>,
}

/// The echelon basis of the null space of the rows that enlarge the span.
fn hull_of(
    alloc: Global,
    independent: &[Ints],
    cols: usize,
    wide: bool,
) -> Result<Vec<Ints>, DdFail>
    requires columns { HasCols cols independent.now }
    requires few_rows { length independent.now < 2 ^ 32 }
    requires few_columns { cols < 2 ^ 30 }
    ensures null { IfOk result (λ v. (P : List ℕ) × IsNullBasis cols independent.now v.items P) }
    ensures wide { IfErr result (IsEliminationFail cols independent.now) }
    ensures lost { wide ≡ true → IfErr result (λ f. IfWide f (IsLostOnExtended cols independent.now)) }
{
    Ok(null_space_by(alloc, independent, cols, wide)?)
}

/// All of these, by the fronts of the arrangement.
pub(crate) fn all_fronts(
    alloc: Global,
    cols: usize,
    list: &[Ints],
    equations: &[Ints],
    rows: &[Ints],
    start: usize,
    wide: bool,
) -> Result<Whole, RunFail>
    requires columns { HasCols cols list.now }
    requires few_list { length list.now < 2 ^ 32 }
    requires few_rows { length rows.now < 2 ^ 30 }
    requires few_equations { length equations.now < 2 ^ 30 }
    requires few_columns { cols < 2 ^ 30 }
    requires arranged { IsArrangement list.now equations.now rows.now start }
    ensures generators { IfOk result (λ w.
        AreGenerators cols (CutOut list.now) w.facets.items w.hull.items) }
    ensures few_facets { IfOk result (λ w. length w.facets.items ≤ most_rows) }
    ensures run { IfOk result (λ w. IsRunTo cols equations.now rows.now start (length rows.now)
        (map (λ s. s.items) w.cells.items)) }
    ensures ascending { IfOk result (λ w.
        All (IsAscending (length rows.now)) (map (λ s. s.items) w.cells.items)) }
    ensures few { IfOk result (λ w. length w.cells.items ≤ MOST_ROWS) }
    ensures fail { IfErr result (IsListFail cols list.now equations.now rows.now start) }
    ensures lost { wide ≡ true → IfErr result (λ f. IfRunWide f (DescriptionIsLost cols list.now)) }
{
    let independent = first_rows(alloc, equations, rows, start)?;
    let hull = hull_of(alloc, &independent, cols, wide)?;
    let first = start_rays(alloc, cols, equations, rows, start, &independent, wide)?;
    let all = all_cells(alloc, cols, equations, rows, start, first, wide)?;
    let cells = all.cells;
    let rays = all.rays;
    let mut facets = rays.rows;
    facets.sort()?;
    Ok(Whole {
        facets,
        hull,
        cells,
    })
}
