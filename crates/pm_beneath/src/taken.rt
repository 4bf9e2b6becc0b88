// The order in which the rays are taken.

ghost use Rattle.pm_vector.specs.Rows.{HasCols};
ghost use Rattle.pm_beneath.specs.Placed.{IfPlaceWide, IsShownPlace};
ghost use Rattle.pm_beneath.specs.StatedLists.{IsStatedList};
ghost use Rattle.pm_dd.specs.Lost.{PartsAreLost};
ghost use Rattle.pm_elim.specs.Refusals.{IfWide};
ghost use Rattle.pm_vector.specs.Evidence.{IsBasisOf, IsEvidence};
ghost use Rattle.pm_elim.specs.Lost.{IsLost};
ghost use Rattle.pm_laws_placing.specs.Placing.{places_marked, stated_places};
ghost use Rattle.pm_geom.specs.Triangulations.{rows_at};
ghost use Rattle.std.specs.Prelude.{All, IfErr, IfOk, List, length, true, ◌++◌, ◌<◌, ◌^◌, ◌≡◌, ℕ};

use crate::fails::PlaceFail;
use pm_dd::{add_copies, both_ways};
use pm_elim::{ElimFail, echelon_by, enlarging_by};
use pm_vector::Ints;
use std::alloc::{AllocError, Global};

/// The places that have this mark, put behind others.
fn add_places(
    alloc: Global,
    marks: &[bool],
    mark: bool,
    others: Vec<u32>,
) -> Result<Vec<u32>, AllocError>
    requires { length marks.now < 2 ^ 30 }
    ensures { IfOk result (λ v. v.items ≡ others.items ++ places_marked mark marks.now 0) }
{
    let mut made = others;
    for i in 0..marks.len() {
        if marks[i] == mark {
            made.push(i as u32)?;
        }
    }
    Ok(made)
}

/// The rows at places.
fn rows_of(alloc: Global, rays: &[Ints], places: &[u32]) -> Result<Vec<Ints>, AllocError>
    requires { All (λ k. k < length rays.now) places.now }
    ensures { IfOk result (λ v. v.items ≡ rows_at rays.now places.now) }
{
    let mut made = Vec::new(alloc);
    for place in places {
        made.push(rays[*place as usize].copy(alloc)?)?;
    }
    Ok(made)
}

/// The rays as they are taken, and their places in the list that was handed in.
#[derive(Drop)]
pub(crate) struct Taken {
    pub rows: Vec<Ints>,
    pub places: Vec<u32>,
    /// How many come first because they enlarge the span.
    pub start: usize,
}

/// The rays in the stated order: first those that have a mark.
fn in_stated_order(alloc: Global, rays: &[Ints], marks: &[bool]) -> Result<Taken, AllocError>
    requires as_many { length marks.now ≡ length rays.now }
    requires few { length rays.now < 2 ^ 30 }
    ensures places { IfOk result (λ t. t.places.items ≡ stated_places marks.now) }
    ensures rows { IfOk result (λ t. t.rows.items ≡ rows_at rays.now (stated_places marks.now)) }
    ensures start { IfOk result (λ t. t.start ≡ length (places_marked true marks.now 0)) }
{
    let first = add_places(alloc, marks, true, Vec::new(alloc))?;
    let start = first.len();
    let places = add_places(alloc, marks, false, first)?;
    let rows = rows_of(alloc, rays, &places)?;
    Ok(Taken {
        rows,
        places,
        start,
    })
}

/// The echelon basis of the lineality.
fn line_basis(
    alloc: Global,
    cols: usize,
    lineality: &[Ints],
    wide: bool,
) -> Result<Vec<Ints>, ElimFail>
    requires columns { HasCols cols lineality.now }
    requires few_rows { length lineality.now < 2 ^ 30 }
    requires few_columns { cols < 2 ^ 30 }
    ensures basis { IfOk result (λ v. (pivots : List ℕ) × IsBasisOf cols lineality.now v.items pivots) }
    ensures wide { IfErr result (λ f. IfWide f (λ e. IsEvidence cols lineality.now e)) }
    ensures lost { wide ≡ true → IfErr result (λ f. IfWide f (λ _. IsLost cols lineality.now)) }
{
    let basis = echelon_by(alloc, lineality, cols, wide)?;
    Ok(basis.rows)
}

/// The double description list of the lineality and the rays, and how its rows are taken.
#[derive(Drop)]
pub(crate) struct StatedList {
    /// The echelon basis of the lineality.
    pub basis: Vec<Ints>,
    /// This both ways, and then the rays.
    pub list: Vec<Ints>,
    /// The rays in the stated order.
    pub taken: Taken,
}

/// This list, or a refusal with its evidence.
pub(crate) fn stated_list(
    alloc: Global,
    cols: usize,
    rays: &[Ints],
    lineality: &[Ints],
    wide: bool,
) -> Result<StatedList, PlaceFail>
    requires ray_cols { HasCols cols rays.now }
    requires line_cols { HasCols cols lineality.now }
    requires few_rays { length rays.now < 2 ^ 30 }
    requires few_lines { length lineality.now < 2 ^ 30 }
    requires few_columns { cols < 2 ^ 30 }
    ensures stated { IfOk result (λ t.
        IsStatedList cols lineality.now rays.now t.basis.items t.list.items t.taken.rows.items t.taken.places.items t.taken.start) }
    ensures shown { IfErr result (IsShownPlace cols lineality.now rays.now) }
    ensures lost { wide ≡ true → IfErr result (λ f.
        IfPlaceWide f (PartsAreLost cols lineality.now rays.now)) }
{
    let basis = line_basis(alloc, cols, lineality, wide)?;
    let signs = both_ways(alloc, &basis)?;
    let list = add_copies(alloc, rays, signs)?;
    let marks = enlarging_by(alloc, &list, cols, wide)?;
    let lead = 2 * basis.len();
    let taken = in_stated_order(alloc, rays, &marks[lead..])?;
    Ok(StatedList { basis, list, taken })
}
