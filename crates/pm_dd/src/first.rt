// The start: the dual rows of the first rows, which are independent.

ghost use Rattle.pm_vector.specs.Cones.{IsIndependent};
ghost use Rattle.pm_vector.specs.Rows.{HasCols};
ghost use Rattle.pm_dd.specs.Building.{AllBut};
ghost use Rattle.pm_dd.specs.Form.{AreReduced};
ghost use Rattle.pm_dd.specs.Lost.{DualsAreLost, IfWide};
ghost use Rattle.pm_dd.specs.Refusals.{IsShownOnRows};
ghost use Rattle.pm_dd.specs.Tables.{IsRayTable};
ghost use Rattle.pm_elim.specs.Duals.{IfDependent, IfDualWide};
ghost use Rattle.pm_vector.specs.Evidence.{IsEvidence};
ghost use Rattle.pm_elim.specs.Lost.{HasNoWideDuals};
ghost use Rattle.std.specs.Prelude.{IfErr, IfOk, length, take, true, ◌*◌, ◌++◌, ◌+◌, ◌<◌, ◌^◌, ◌≡◌, ◌≤◌};

use crate::fails::DdFail;
use crate::rays::Rays;
use pm_bits::{BitRow, BitTable};
use pm_elim::{DualFail, dual_basis_by};
use pm_geom::{Evidence, RowList};
use pm_limits::MOST_ROWS;
use pm_vector::{Ints, copies};
use std::alloc::{AllocError, Global};

/// A row of bits in which those before a place are set, but one.
pub(crate) fn all_but(
    alloc: Global,
    len: usize,
    start: usize,
    but: usize,
) -> Result<BitRow, AllocError>
    requires { start ≤ len }
    ensures { IfOk result (λ z. AllBut len start but z) }
{
    let mut made = BitRow::with_len(alloc, len)?;
    for p in 0..start {
        if p != but {
            made.set(p);
        }
    }
    Ok(made)
}

/// Copies of the equations and of the first rows.
pub fn first_rows(
    alloc: Global,
    equations: &[Ints],
    rows: &[Ints],
    start: usize,
) -> Result<Vec<Ints>, AllocError>
    requires { start ≤ length rows.now }
    ensures { IfOk result (λ v. v.items ≡ equations.now ++ take start rows.now) }
{
    let mut made = copies(alloc, equations)?;
    for i in 0..start {
        made.push(rows[i].copy(alloc)?)?;
    }
    Ok(made)
}

/// The rays of the start: the dual rows of the first inequalities, which with the equations are the independent rows
/// handed in.
fn first_rays(
    alloc: Global,
    cols: usize,
    equations: &[Ints],
    rows: &[Ints],
    start: usize,
    independent: &[Ints],
    wide: bool,
) -> Result<Rays, DualFail>
    requires cols { HasCols cols (equations.now ++ take start rows.now) }
    requires within { start ≤ length rows.now }
    requires few_rows { length equations.now + start < 2 ^ 32 }
    requires few_columns { cols < 2 ^ 31 }
    requires these { independent.now ≡ equations.now ++ take start rows.now }
    ensures table { IfOk result (λ r.
        IsRayTable cols equations.now rows.now start r.rows.items r.zeros.rows) }
    ensures row_len { IfOk result (λ r. r.zeros.row_len ≡ length rows.now) }
    ensures reduced { IfOk result (λ r.
        AreReduced cols (equations.now ++ take start rows.now) r.rows.items) }
    ensures dependent { IfErr result (λ f.
        IfDependent f (¬ (IsIndependent (equations.now ++ take start rows.now)))) }
    ensures wide { IfErr result (λ f.
        IfDualWide f (λ e. IsEvidence cols (equations.now ++ take start rows.now) e)) }
    ensures lost { wide ≡ true → IfErr result (λ f.
        IfDualWide f (λ _. HasNoWideDuals cols (equations.now ++ take start rows.now))) }
{
    let duals = dual_basis_by(alloc, independent, cols, wide)?;
    let mut made = Vec::new(alloc);
    let mut zeros = BitTable::new(alloc, rows.len());
    for k in 0..start {
        made.push(duals[equations.len() + k].copy(alloc)?)?;
        let Ok(()) = zeros.push(all_but(alloc, rows.len(), start, k)?) else {
            return Err(DualFail::Memory);
        };
    }
    Ok(Rays { rows: made, zeros })
}

/// These rays, or a refusal with its evidence.
pub fn start_rays(
    alloc: Global,
    cols: usize,
    equations: &[Ints],
    rows: &[Ints],
    start: usize,
    independent: &[Ints],
    wide: bool,
) -> Result<Rays, DdFail>
    requires cols { HasCols cols (equations.now ++ take start rows.now) }
    requires within { start ≤ length rows.now }
    requires few_rows { start + 2 * length equations.now < 2 ^ 32 }
    requires few_columns { cols < 2 ^ 31 }
    requires these { independent.now ≡ equations.now ++ take start rows.now }
    requires independent { IsIndependent (equations.now ++ take start rows.now) }
    ensures table { IfOk result (λ r.
        IsRayTable cols equations.now rows.now start r.rows.items r.zeros.rows) }
    ensures row_len { IfOk result (λ r. r.zeros.row_len ≡ length rows.now) }
    ensures few { IfOk result (λ r. length r.rows.items ≤ MOST_ROWS) }
    ensures reduced { IfOk result (λ r.
        AreReduced cols (equations.now ++ take start rows.now) r.rows.items) }
    ensures shown { IfErr result (IsShownOnRows cols equations.now rows.now start) }
    ensures lost { wide ≡ true → IfErr result (λ f.
        IfWide f (DualsAreLost cols (equations.now ++ take start rows.now))) }
{
    let rays = match first_rays(alloc, cols, equations, rows, start, independent, wide) {
        Ok(rays) => rays,
        Err(DualFail::Dependent) => unreachable!(),
        Err(DualFail::Wide(step)) => return Err(DdFail::Wide(Evidence::E1(step))),
        Err(DualFail::Memory) => return Err(DdFail::Memory),
    };
    if rays.rows.len() > MOST_ROWS {
        return Err(DdFail::Many(Evidence::E5Rays {
            front: (start + 2 * equations.len()) as u32,
            rays: RowList::from_vec(rays.rows),
        }));
    }
    Ok(rays)
}
