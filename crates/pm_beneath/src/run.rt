// The loop over the fronts.

ghost use Rattle.pm_vector.specs.Rows.{HasCols};
ghost use Rattle.pm_vector.specs.Bases.{IsRank, SameSpan};
ghost use Rattle.pm_beneath.specs.Runs.{IfRunWide, IsCrowdOf, IsRunFail, IsRunTo, below};
ghost use Rattle.pm_dd.specs.Form.{AreReduced};
ghost use Rattle.pm_dd.specs.Fronts.{HalfSpaces};
ghost use Rattle.pm_dd.specs.Lost.{HasWideRayOnRows};
ghost use Rattle.pm_dd.specs.Tables.{IsRayTable};
ghost use Rattle.pm_geom.specs.Cones.{IsOrder};
ghost use Rattle.pm_geom.specs.Graphs.{IsAscending};
ghost use Rattle.pm_laws_placing.specs.PlacedCells.{HaveSameSets};
ghost use Rattle.std.specs.Prelude.{All, IfErr, IfOk, [], length, map, take, true, ◌++◌, ◌+◌, ◌<◌, ◌^◌, ◌∷◌, ◌≡◌, ◌≤◌};

use crate::fronts::{Front, next_front};
use crate::sorted::in_order;
use pm_dd::DdFail;
use pm_dd::rays::Rays;
use pm_limits::MOST_ROWS;
use pm_vector::Ints;
use std::alloc::{AllocError, Global};

/// Why the cells of all fronts were not given.
#[derive(Drop)]
pub(crate) enum RunFail {
    /// A refusal of double description.
    Engine(DdFail),
    /// The number of rows of a front, and its cells, which are more than `MOST_ROWS`.
    Crowd(usize, Vec<Vec<u32>>),
}

impl From<DdFail> for RunFail {
    ghost use Rattle.pm_beneath.specs.declared.run.RunFail.TheVariants.{Engine};
    ghost use Rattle.std.specs.Prelude.{◌≡◌};

    ghost from_gives = { λ f e. e ≡ Engine f };

    fn from(f: DdFail) -> RunFail {
        RunFail::Engine(f)
    }
}

impl From<AllocError> for RunFail {
    ghost use Rattle.pm_beneath.specs.declared.run.RunFail.TheVariants.{Engine};
    ghost use Rattle.pm_dd.specs.declared.fails.DdFail.TheVariants.{Memory};
    ghost use Rattle.std.specs.Prelude.{◌≡◌};

    ghost from_gives = { λ f e. e ≡ Engine Memory };

    fn from(_f: AllocError) -> RunFail {
        RunFail::Engine(DdFail::Memory)
    }
}

/// The places before the start.
#[tactic(auto, using(crate::proofs::FrontLaws::below_more))]
fn first_cell(alloc: Global, start: usize) -> Result<Vec<u32>, AllocError>
    requires { start < 2 ^ 30 }
    ensures { IfOk result (λ v. v.items ≡ below start) }
{
    let mut made = Vec::new(alloc);
    for i in 0..start {
        made.push(i as u32)?;
    }
    Ok(made)
}

/// The one cell of the start.
fn first_cells(alloc: Global, start: usize) -> Result<Vec<Vec<u32>>, AllocError>
    requires { start < 2 ^ 30 }
    ensures { IfOk result (λ v. map (λ s. s.items) v.items ≡ below start ∷ []) }
{
    let mut made = Vec::new(alloc);
    let Ok(()) = made.push(first_cell(alloc, start)?) else {
        return Err(AllocError);
    };
    Ok(made)
}

/// These cells, where they are few. Else they are put in order, each once, and refused where they still are more than
/// `MOST_ROWS`.
#[tactic(auto, using(crate::proofs::FrontLaws::same_itself))]
fn few_cells(front: usize, cells: Vec<Vec<u32>>) -> Result<Vec<Vec<u32>>, RunFail>
    ensures same { IfOk result (λ v.
        HaveSameSets (map (λ s. s.items) v.items) (map (λ s. s.items) cells.items)) }
    ensures few { IfOk result (λ v. length v.items ≤ MOST_ROWS) }
    ensures crowd { IfErr result (IsCrowdOf front (map (λ s. s.items) cells.items)) }
{
    if cells.len() <= MOST_ROWS {
        return Ok(cells);
    }
    let made = in_order(cells)?;
    if made.len() > MOST_ROWS {
        return Err(RunFail::Crowd(front, made));
    }
    Ok(made)
}

/// The cells of all rows.
pub(crate) fn all_cells(
    alloc: Global,
    cols: usize,
    equations: &[Ints],
    rows: &[Ints],
    start: usize,
    first: Rays,
    wide: bool,
) -> Result<Front, RunFail>
    requires equation_cols { HasCols cols equations.now }
    requires row_cols { HasCols cols rows.now }
    requires few_rows { length rows.now < 2 ^ 30 }
    requires few_equations { length equations.now < 2 ^ 30 }
    requires few_columns { cols < 2 ^ 30 }
    requires within { start ≤ length rows.now }
    requires spans { SameSpan (equations.now ++ take start rows.now) (equations.now ++ rows.now) }
    requires rank { IsRank (equations.now ++ rows.now) (length equations.now + start) }
    requires table { IsRayTable cols equations.now rows.now start first.rows.items first.zeros.rows }
    requires row_len { first.zeros.row_len ≡ length rows.now }
    requires few { length first.rows.items ≤ MOST_ROWS }
    requires reduced { AreReduced cols (equations.now ++ take start rows.now) first.rows.items }
    ensures order { IfOk result (λ r. IsOrder cols (HalfSpaces equations.now rows.now) r.rays.rows.items) }
    ensures few_rays { IfOk result (λ r. length r.rays.rows.items ≤ MOST_ROWS) }
    ensures reduced { IfOk result (λ r.
        AreReduced cols (equations.now ++ take start rows.now) r.rays.rows.items) }
    ensures run { IfOk result (λ r. IsRunTo cols equations.now rows.now start (length rows.now)
        (map (λ s. s.items) r.cells.items)) }
    ensures ascending { IfOk result (λ r.
        All (IsAscending (length rows.now)) (map (λ s. s.items) r.cells.items)) }
    ensures few { IfOk result (λ r. length r.cells.items ≤ MOST_ROWS) }
    ensures fail { IfErr result (IsRunFail cols equations.now rows.now start) }
    ensures lost { wide ≡ true → IfErr result (λ f.
        IfRunWide f (HasWideRayOnRows cols equations.now rows.now start)) }
{
    let mut rays = first;
    let mut cells = first_cells(alloc, start)?;
    for front in start..rows.len() {
        let next = next_front(
            alloc, cols, equations, rows, start, front, rays, &cells, wide,
        )?;
        rays = next.rays;
        let few = few_cells(front + 1, next.cells)?;
        cells = few;
    }
    Ok(Front { rays, cells })
}
