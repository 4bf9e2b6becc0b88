// The facets and the cells of the double description list of a lineality and rays.

ghost use Rattle.pm_vector.specs.Rows.{HasCols};
ghost use Rattle.pm_beneath.specs.Placed.{IfPlaceWide, IsShownPlace};
ghost use Rattle.pm_beneath.specs.PlacedRuns.{FitsPlaces, IsPlaceFailOf, IsPlacedRun};
ghost use Rattle.pm_beneath.specs.Runs.{IfRunWide, IsListFail, IsRunTo};
ghost use Rattle.pm_dd.specs.Arrangement.{IsArrangement};
ghost use Rattle.pm_geom.specs.Cones.{CutOut};
ghost use Rattle.pm_geom.specs.Generators.{AreGenerators};
ghost use Rattle.pm_geom.specs.Graphs.{IsAscending};
ghost use Rattle.pm_dd.specs.Hulls.{AreFacets};
ghost use Rattle.pm_dd.specs.Lost.{DescriptionIsLost, PartsAreLost};
ghost use Rattle.std.specs.Prelude.{All, IfErr, IfOk, length, map, true, ◌<◌, ◌^◌, ◌≡◌, ◌≤◌};
ghost use Rattle.pm_limits.specs.Limits.{most_rows};

use crate::fails::PlaceFail;
use crate::names::ordered_cells;
use crate::run::RunFail;
use crate::taken::{StatedList, Taken, stated_list};
use crate::whole::{Whole, all_fronts};
use pm_geom::{Evidence, PlaceSets};
use pm_limits::MOST_ROWS;
use pm_vector::Ints;
use std::alloc::{AllocError, Global};

/// The facets and the cells of a list, by its fronts.
fn list_fronts(
    alloc: Global,
    cols: usize,
    stated: &StatedList,
    wide: bool,
) -> Result<Whole, RunFail>
    requires columns { HasCols cols stated.now.list.items }
    requires few_list { length stated.now.list.items < 2 ^ 32 }
    requires few_rows { length stated.now.taken.rows.items < 2 ^ 30 }
    requires few_equations { length stated.now.basis.items < 2 ^ 30 }
    requires few_columns { cols < 2 ^ 30 }
    requires arranged { IsArrangement stated.now.list.items stated.now.basis.items stated.now.taken.rows.items stated.now.taken.start }
    ensures generators { IfOk result (λ w.
        AreGenerators cols (CutOut stated.now.list.items) w.facets.items w.hull.items) }
    ensures few_facets { IfOk result (λ w. length w.facets.items ≤ most_rows) }
    ensures run { IfOk result (λ w.
        IsRunTo cols stated.now.basis.items stated.now.taken.rows.items stated.now.taken.start
        (length stated.now.taken.rows.items) (map (λ s. s.items) w.cells.items)) }
    ensures ascending { IfOk result (λ w. All (IsAscending (length stated.now.taken.rows.items))
        (map (λ s. s.items) w.cells.items)) }
    ensures few { IfOk result (λ w. length w.cells.items ≤ MOST_ROWS) }
    ensures fail { IfErr result
        (IsListFail cols stated.now.list.items stated.now.basis.items stated.now.taken.rows.items stated.now.taken.start) }
    ensures lost { wide ≡ true → IfErr result (λ f.
        IfRunWide f (DescriptionIsLost cols stated.now.list.items)) }
{
    let taken = &stated.taken;
    all_fronts(
        alloc,
        cols,
        &stated.list,
        &stated.basis,
        &taken.rows,
        taken.start,
        wide,
    )
}

/// The refusal of a run, with the cells by the places of the rays as they were handed in, and the front in the whole
/// list, in which `lead` rows stand before the rays.
fn place_fail(alloc: Global, fail: RunFail, places: &[u32], many: usize, lead: usize) -> PlaceFail
    requires fits { FitsPlaces (length places.now) lead fail }
    requires few { many < 2 ^ 30 }
    ensures { IsPlaceFailOf many lead places.now fail result }
{
    match fail {
        RunFail::Engine(fail) => PlaceFail::from(fail),
        RunFail::Crowd(front, crowd) => match ordered_cells(alloc, &crowd, places, many) {
            Ok(cells) => PlaceFail::Many(Evidence::E5Cells {
                front: (front + lead) as u32,
                cells: PlaceSets::from_vec(cells),
            }),
            Err(AllocError) => PlaceFail::Memory,
        },
    }
}

/// The facets and the cells of all rows, and the rays as they are taken.
#[derive(Drop)]
pub(crate) struct Placed {
    pub whole: Whole,
    pub taken: Taken,
}

/// All of these, or a refusal with its evidence.
pub(crate) fn all_placed(
    alloc: Global,
    cols: usize,
    rays: &[Ints],
    lineality: &[Ints],
    wide: bool,
) -> Result<Placed, PlaceFail>
    requires ray_cols { HasCols cols rays.now }
    requires line_cols { HasCols cols lineality.now }
    requires few_rays { length rays.now < 2 ^ 30 }
    requires few_lines { length lineality.now < 2 ^ 30 }
    requires few_columns { cols < 2 ^ 30 }
    ensures facets { IfOk result (λ p.
        AreFacets cols rays.now lineality.now p.whole.facets.items p.whole.hull.items) }
    ensures few_facets { IfOk result (λ p. length p.whole.facets.items ≤ most_rows) }
    ensures run { IfOk result (λ p. IsPlacedRun cols lineality.now rays.now p.taken.places.items
        (map (λ s. s.items) p.whole.cells.items)) }
    ensures within { IfOk result (λ p.
        All (λ s. All (λ k. k < length p.taken.places.items) s.items) p.whole.cells.items) }
    ensures few { IfOk result (λ p. length p.whole.cells.items ≤ MOST_ROWS) }
    ensures shown { IfErr result (IsShownPlace cols lineality.now rays.now) }
    ensures lost { wide ≡ true → IfErr result (λ f.
        IfPlaceWide f (PartsAreLost cols lineality.now rays.now)) }
{
    let stated = stated_list(alloc, cols, rays, lineality, wide)?;
    let lead = 2 * stated.basis.len();
    match list_fronts(alloc, cols, &stated, wide) {
        Ok(whole) => Ok(Placed {
            whole,
            taken: stated.taken,
        }),
        Err(fail) => Err(place_fail(alloc, fail, &stated.taken.places, rays.len(), lead)),
    }
}
