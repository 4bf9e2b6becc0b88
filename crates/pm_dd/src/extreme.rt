// The extreme rays of the cone that rows cut out.

ghost use Rattle.pm_vector.specs.Cones.{IsIndependent};
ghost use Rattle.pm_vector.specs.Rows.{HasCols};
ghost use Rattle.pm_dd.specs.Lost.{DescriptionIsLost, IfWide};
ghost use Rattle.pm_dd.specs.Refusals.{IsEliminationFail, IsMemory, IsShown};
ghost use Rattle.pm_dd.specs.Tame.{AreTame};
ghost use Rattle.pm_elim.specs.Lost.{IsLostOnExtended};
ghost use Rattle.pm_vector.specs.NullSpaces.{IsNullBasis};
ghost use Rattle.pm_geom.specs.Cones.{CutOut};
ghost use Rattle.pm_geom.specs.Generators.{AreGenerators};
ghost use Rattle.std.specs.Prelude.{IfErr, IfNone, IfOk, IfSome, List, length, true, ◌<◌, ◌^◌, ◌≡◌, ◌≤◌, ℕ};
ghost use Rattle.pm_limits.specs.Limits.{most_rows};

use crate::fails::DdFail;
use crate::first::{first_rows, start_rays};
use crate::mixed::ordered;
use crate::order::arranged;
use crate::run::all_rays;
use pm_elim::null_space_by;
use pm_geom::descriptions::Generators;
use pm_limits::MOST_ROWS;
use pm_vector::Ints;
use std::alloc::Global;

/// The echelon basis of the null space of the rows that enlarge the span: it is empty where these are as many as the
/// columns.
fn lineality_of(
    alloc: Global,
    independent: &[Ints],
    cols: usize,
    wide: bool,
) -> Result<Vec<Ints>, DdFail>
    requires columns { HasCols cols independent.now }
    requires few_rows { length independent.now < 2 ^ 32 }
    requires few_columns { cols < 2 ^ 31 }
    requires independent { IsIndependent independent.now }
    ensures null { IfOk result (λ v. (P : List ℕ) × IsNullBasis cols independent.now v.items P) }
    ensures wide { IfErr result (IsEliminationFail cols independent.now) }
    ensures lost { wide ≡ true → IfErr result (λ f. IfWide f (IsLostOnExtended cols independent.now)) }
{
    if independent.len() == cols {
        return Ok(Vec::new(alloc));
    }
    Ok(null_space_by(alloc, independent, cols, wide)?)
}

/// All extreme rays of the cone that the rows cut out, and the echelon basis of its lineality, by the stated order.
/// None where the cone of a front has more than `most` of them.
fn rays_within(
    alloc: Global,
    rows: &[Ints],
    cols: usize,
    wide: bool,
    most: usize,
) -> Result<Option<Generators>, DdFail>
    requires columns { HasCols cols rows.now }
    requires few_rows { length rows.now < 2 ^ 32 }
    requires few_columns { cols < 2 ^ 31 }
    ensures generators { IfOk result (λ o. IfSome o (λ g.
        AreGenerators cols (CutOut rows.now) g.rays.items g.lineality.items)) }
    ensures few { IfOk result (λ o. IfSome o (λ g. length g.rays.items ≤ most_rows)) }
    ensures none { IfOk result (λ o. IfNone o (most < most_rows)) }
    ensures shown { IfErr result (λ f. IsShown cols rows.now f) }
    ensures lost { wide ≡ true → IfErr result (λ f. IfWide f (DescriptionIsLost cols rows.now)) }
{
    let order = arranged(alloc, rows, cols, wide)?;
    let independent = first_rows(alloc, &order.equations, &order.rows, order.start)?;
    let lineality = lineality_of(alloc, &independent, cols, wide)?;
    let first = start_rays(
        alloc,
        cols,
        &order.equations,
        &order.rows,
        order.start,
        &independent,
        wide,
    )?;
    let Some(all) = all_rays(
        alloc,
        cols,
        &order.equations,
        &order.rows,
        order.start,
        first,
        wide,
        most,
    )?
    else {
        return Ok(None);
    };
    let mut rays = all.rows;
    rays.sort()?;
    Ok(Some(Generators { rays, lineality }))
}

/// All of them.
fn stated_rays(alloc: Global, rows: &[Ints], cols: usize, wide: bool) -> Result<Generators, DdFail>
    requires columns { HasCols cols rows.now }
    requires few_rows { length rows.now < 2 ^ 32 }
    requires few_columns { cols < 2 ^ 31 }
    ensures generators { IfOk result (λ g.
        AreGenerators cols (CutOut rows.now) g.rays.items g.lineality.items) }
    ensures few { IfOk result (λ g. length g.rays.items ≤ most_rows) }
    ensures shown { IfErr result (λ f. IsShown cols rows.now f) }
    ensures lost { wide ≡ true → IfErr result (λ f. IfWide f (DescriptionIsLost cols rows.now)) }
{
    match rays_within(alloc, rows, cols, wide, MOST_ROWS)? {
        Some(found) => Ok(found),
        None => unreachable!(),
    }
}

/// Whether there are at least eight times as many rows as columns, and two of them differ in the first entry.
fn are_many(rows: &[Ints], cols: usize) -> bool
    requires { HasCols cols rows.now }
{
    if cols == 0 || rows.len() / 8 < cols {
        return false;
    }
    let first = rows[0].get(0);
    for row in rows {
        if row.get(0) != first {
            return true;
        }
    }
    false
}

/// The same by the lexicographic order alone, where there are many rows: those that others generate often come late
/// there, and cut off nothing. None where the rows are not many, where a cone on the way has more extreme rays than
/// there are rows, or where a step is refused.
pub(crate) fn few_rays(alloc: Global, rows: &[Ints], cols: usize, wide: bool) -> Option<Generators>
    requires columns { HasCols cols rows.now }
    requires few_rows { length rows.now < 2 ^ 32 }
    requires few_columns { cols < 2 ^ 31 }
    ensures generators { IfSome result (λ g.
        AreGenerators cols (CutOut rows.now) g.rays.items g.lineality.items) }
    ensures few { IfSome result (λ g. length g.rays.items ≤ most_rows) }
{
    if !are_many(rows, cols) {
        return None;
    }
    let Ok(sorted) = ordered(alloc, rows, false) else {
        return None;
    };
    match rays_within(alloc, &sorted, cols, wide, rows.len()) {
        Ok(found) => found,
        Err(refused) => {
            drop(refused);
            None
        }
    }
}

/// The same, by the mixed order, and where that does not suffice by the stated one.
pub(crate) fn rays_of(
    alloc: Global,
    rows: &[Ints],
    cols: usize,
    wide: bool,
) -> Result<Generators, DdFail>
    requires columns { HasCols cols rows.now }
    requires few_rows { length rows.now < 2 ^ 32 }
    requires few_columns { cols < 2 ^ 31 }
    ensures generators { IfOk result (λ g.
        AreGenerators cols (CutOut rows.now) g.rays.items g.lineality.items) }
    ensures few { IfOk result (λ g. length g.rays.items ≤ most_rows) }
    ensures shown { IfErr result (λ f. IsShown cols rows.now f) }
    ensures lost { wide ≡ true → IfErr result (λ f. IfWide f (DescriptionIsLost cols rows.now)) }
    ensures tame { AreTame cols rows.now → IfErr result IsMemory }
{
    let mixed = ordered(alloc, rows, true)?;
    match stated_rays(alloc, &mixed, cols, wide) {
        Ok(found) => Ok(found),
        Err(DdFail::Memory) => Err(DdFail::Memory),
        Err(refused) => {
            drop(refused);
            stated_rays(alloc, rows, cols, wide)
        }
    }
}

/// All extreme rays of the cone of the rows with `cols` entries that have a non-negative product with each of `rows`,
/// and the echelon basis of its lineality.
/// The rays are primitive, with zeros in the pivot columns of that basis, each once and in lexicographic order; there
/// are at most `MOST_ROWS` of them.
/// The rows are first tried in a mixed order. Where that run leaves the range or has too many rays, the stated order
/// is run, and its answer or refusal counts.
/// `Wide` only with evidence: E1 on the rows, or on those that enlarge the span of the ones before them; or E2 on a
/// front of the stated order. `Many` only with more than `MOST_ROWS` extreme rays of the cone of such a front (E5).
pub fn extreme_rays(alloc: Global, rows: &[Ints], cols: usize) -> Result<Generators, DdFail>
    requires columns { HasCols cols rows.now }
    requires few_rows { length rows.now < 2 ^ 30 }
    requires few_columns { cols < 2 ^ 31 }
    ensures generators { IfOk result (λ g.
        AreGenerators cols (CutOut rows.now) g.rays.items g.lineality.items) }
    ensures few { IfOk result (λ g. length g.rays.items ≤ most_rows) }
    ensures shown { IfErr result (λ f. IsShown cols rows.now f) }
    ensures tame { AreTame cols rows.now → IfErr result IsMemory }
{
    rays_of(alloc, rows, cols, false)
}

/// The same by wide numbers on the way: a step that leaves the range is worked in them, so that no row is refused
/// whose entries are in the range.
/// A refusal is that of a step by numbers of the range alone, with its evidence. `Wide` comes only where an elimination
/// of the rows is lost by wide numbers too, or the cone of some front has an extreme ray out of the range.
pub fn wide_extreme_rays(alloc: Global, rows: &[Ints], cols: usize) -> Result<Generators, DdFail>
    requires columns { HasCols cols rows.now }
    requires few_rows { length rows.now < 2 ^ 30 }
    requires few_columns { cols < 2 ^ 31 }
    ensures generators { IfOk result (λ g.
        AreGenerators cols (CutOut rows.now) g.rays.items g.lineality.items) }
    ensures few { IfOk result (λ g. length g.rays.items ≤ most_rows) }
    ensures shown { IfErr result (λ f. IsShown cols rows.now f) }
    ensures lost { IfErr result (λ f. IfWide f (DescriptionIsLost cols rows.now)) }
    ensures tame { AreTame cols rows.now → IfErr result IsMemory }
{
    rays_of(alloc, rows, cols, true)
}
