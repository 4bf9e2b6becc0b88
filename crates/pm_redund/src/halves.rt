// The facet rows among half-spaces.

ghost use Rattle.pm_vector.specs.Cones.{InCone};
ghost use Rattle.pm_vector.specs.Rows.{HasCols, Row};
ghost use Rattle.pm_vector.specs.Bases.{IsEchelonBasis};
ghost use Rattle.pm_geom.specs.Cones.{IsValid};
ghost use Rattle.pm_geom.specs.Generators.{AreGenerators};
ghost use Rattle.pm_incidence.specs.Thinning.{half_spaces};
ghost use Rattle.pm_redund.specs.Redundancy.{IsHalvesFail, IsRowsFail};
ghost use Rattle.pm_redund.specs.Keeping.{IsSupport};
ghost use Rattle.pm_simplex.specs.Lineality.{MarkLines};
ghost use Rattle.pm_types.specs.Right.{CutsOutOf};
ghost use Rattle.std.specs.List.{All};
ghost use Rattle.std.specs.Prelude.{IfErr, IfOk, IfSome, IsTrue, List, false, get_or, length, pred, ℕ, ◌<◌, ◌^◌, ◌≡◌, ◌≤◌, ◌↔◌, ◌≢◌};

use crate::enough::enough_rows;
use crate::support::{Lineality, lineality_of};
use crate::thinned::kept_of;
use pm_geom::descriptions::Facets;
use pm_geom::{Evidence, Places};
use pm_incidence::{ThinFail, half_spaces, thinned_rows, unit_rows};
use pm_limits::MOST_ROWS;
use pm_props::ObjectType;
use pm_vector::Ints;
use std::alloc::{AllocError, Global};

/// Whether the last mark is set.
fn is_last_marked(marks: &[bool]) -> bool
    ensures { IsTrue result ↔ IsTrue (get_or marks.now (pred (length marks.now)) false) }
{
    !marks.is_empty() && marks[marks.len() - 1]
}

/// The refusal that names places of too many facet rows.
fn too_many(alloc: Global, places: &[usize]) -> Result<ThinFail, AllocError>
    requires { All (λ k. k < 2 ^ 32) places.now }
    ensures { IfOk result (λ f. f ≡ ThinFail.Many (Evidence.E5Rows places.now)) }
{
    let mut made = Vec::new(alloc);
    for place in places {
        made.push(*place as u32)?;
    }
    Ok(ThinFail::Many(Evidence::E5Rows {
        rows: Places::from_vec(made),
    }))
}

/// The extreme rows among half-spaces, and the echelon basis of those that are equations.
fn thin_halves(
    alloc: Global,
    cols: usize,
    halves: &[Ints],
    equations: &[Ints],
    lines: &Lineality,
    wide: bool,
) -> Result<Facets, ThinFail>
    requires half_cols { HasCols cols halves.now }
    requires equation_cols { HasCols cols equations.now }
    requires few_halves { length halves.now ≤ 2 ^ 30 }
    requires few_equations { length equations.now < 2 ^ 30 }
    requires few_columns { cols < 2 ^ 30 }
    requires marked { MarkLines halves.now equations.now lines.now.marks.items }
    requires support { IfSome lines.now.support (IsSupport cols halves.now equations.now) }
    ensures generators { IfOk result (λ f.
        AreGenerators cols (InCone halves.now equations.now) f.facets.items f.hull.items) }
    ensures cols { IfOk result (λ f. HasCols cols f.facets.items) }
    ensures few { IfOk result (λ f. length f.facets.items ≤ MOST_ROWS) }
    ensures echelon { IfOk result (λ f. (P : List ℕ) × IsEchelonBasis cols f.hull.items P) }
    ensures failed { IfErr result (IsHalvesFail cols halves.now equations.now) }
{
    let enough = enough_rows(alloc, cols, halves, equations, lines, wide)?;
    let kept = kept_of(alloc, cols, halves, equations, &lines.marks, enough, wide)?;
    if kept.places.len() > MOST_ROWS {
        return Err(too_many(alloc, &kept.places)?);
    }
    let facets = thinned_rows(alloc, cols, halves, &kept.basis, &kept.places, wide)?;
    Ok(Facets {
        facets,
        hull: kept.basis.rows,
    })
}

/// All facet rows of a thing among half-spaces that describe it, and the echelon basis of the rows that vanish on it.
/// Where it is asked by wide numbers, these go on where a number leaves the range.
/// The facet rows are primitive, with zeros in the pivot columns of that basis, each once and in lexicographic order;
/// there are at most `MOST_ROWS` of them.
/// `Wide` only with evidence: E1 on the rows that vanish and then the reduced row, E3 on the program of a half-space.
/// `Many` only with more than `MOST_ROWS` facet rows among the half-spaces (E5).
pub fn thin_rows(
    alloc: Global,
    of: ObjectType,
    cols: usize,
    rows: &[Ints],
    equations: &[Ints],
    wide: bool,
) -> Result<Facets, ThinFail>
    requires no_fan { of ≢ ObjectType.Fan }
    requires row_cols { HasCols cols rows.now }
    requires equation_cols { HasCols cols equations.now }
    requires few_rows { length rows.now < 2 ^ 30 }
    requires few_equations { length equations.now < 2 ^ 30 }
    requires some_columns { 0 < cols }
    requires few_columns { cols < 2 ^ 30 }
    ensures facets { IfOk result (λ f. (G L : List Row) → HasCols cols G → HasCols cols L
        → CutsOutOf of cols (InCone G L) rows.now equations.now
        → AreGenerators cols (IsValid cols G L) f.facets.items f.hull.items) }
    ensures cols { IfOk result (λ f. HasCols cols f.facets.items) }
    ensures few { IfOk result (λ f. length f.facets.items ≤ MOST_ROWS) }
    ensures echelon { IfOk result (λ f. (P : List ℕ) × IsEchelonBasis cols f.hull.items P) }
    ensures failed { IfErr result (IsRowsFail of cols rows.now equations.now) }
{
    let halves = half_spaces(alloc, of, cols, rows)?;
    let lines = lineality_of(alloc, cols, &halves, equations, wide)?;
    if of == ObjectType::Polytope && is_last_marked(&lines.marks) {
        return Ok(Facets {
            facets: Vec::new(alloc),
            hull: unit_rows(alloc, cols)?,
        });
    }
    thin_halves(alloc, cols, &halves, equations, &lines, wide)
}
