// An objective as a whole row.

ghost use Rattle.pm_geom.specs.Programs.{IsTimes};
ghost use Rattle.pm_types.specs.Forms.{HasPrimitiveRow};
ghost use Rattle.std.specs.Prelude.{IfNone, IfOk, IfSome, length, pos, ◌<◌, ◌∷◌, ◌≡◌};

use pm_fraction::{Fraction, RowFail, primitive_row};
use pm_vector::Ints;
use std::alloc::{AllocError, Global};

/// A positive number of times an objective, as a whole row.
#[derive(Drop)]
pub(crate) struct WholeObjective {
    pub times: i128,
    pub row: Ints,
}

/// 1, and then the entries of a row.
fn behind_one(alloc: Global, row: &[Fraction]) -> Result<Vec<Fraction>, AllocError>
    ensures { IfOk result (λ v. v.items ≡ record { num = pos 1; den = pos 1 } ∷ row.now) }
{
    let mut made = Vec::new(alloc);
    made.push(Fraction::one())?;
    made.extend_from_slice(row)?;
    Ok(made)
}

/// The first entry of a row, and the others.
fn parted(alloc: Global, row: &Ints) -> Result<WholeObjective, AllocError>
    requires { 0 < length row.now }
    ensures { IfOk result (λ w. row.now ≡ w.times ∷ w.row) }
{
    let entries = Vec::from_slice(alloc, &row.as_slice()[1..])?;
    Ok(WholeObjective {
        times: row.get(0),
        row: Ints::from_vec(entries),
    })
}

/// The objective as a whole row. None only where its primitive row is not made within the range of 128 bits.
pub(crate) fn whole_objective(
    alloc: Global,
    objective: &[Fraction],
) -> Result<Option<WholeObjective>, AllocError>
    ensures times { IfOk result (λ o. IfSome o (λ w. IsTimes w.times objective.now w.row)) }
    ensures none { IfOk result (λ o. IfNone o (¬ (HasPrimitiveRow objective.now))) }
{
    let longer = behind_one(alloc, objective)?;
    match primitive_row(alloc, &longer) {
        Ok(row) => Ok(Some(parted(alloc, &row)?)),
        Err(RowFail::Wide { .. }) => Ok(None),
        Err(RowFail::Memory) => Err(AllocError),
    }
}
