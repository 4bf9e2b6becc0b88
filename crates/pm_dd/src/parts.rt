// Lists that have a first part, taken both ways, and a second part.

ghost use Rattle.pm_vector.specs.Rows.{HasCols};
ghost use Rattle.pm_dd.specs.Fronts.{both_signs};
ghost use Rattle.pm_dd.specs.Lost.{IfWide};
ghost use Rattle.pm_dd.specs.Refusals.{IsEliminationFail};
ghost use Rattle.pm_dd.specs.HullRefusals.{IsDoubleList};
ghost use Rattle.pm_elim.specs.Lost.{IsLost};
ghost use Rattle.std.specs.Prelude.{IfErr, IfOk, length, true, ◌++◌, ◌<◌, ◌^◌, ◌≡◌};

use crate::fails::DdFail;
use pm_elim::echelon_by;
use pm_vector::{Ints, negate};
use std::alloc::{AllocError, Global};

/// Each row, and after it its opposite.
pub fn both_ways(alloc: Global, rows: &[Ints]) -> Result<Vec<Ints>, AllocError>
    ensures { IfOk result (λ v. v.items ≡ both_signs rows.now) }
{
    let mut made = Vec::new(alloc);
    for row in rows {
        made.push(row.copy(alloc)?)?;
        let mut other = row.copy(alloc)?;
        negate(&mut other);
        made.push(other)?;
    }
    Ok(made)
}

/// Copies of rows, put behind others.
pub fn add_copies(alloc: Global, rows: &[Ints], others: Vec<Ints>) -> Result<Vec<Ints>, AllocError>
    ensures { IfOk result (λ v. v.items ≡ others.items ++ rows.now) }
{
    let mut made = others;
    for row in rows {
        made.push(row.copy(alloc)?)?;
    }
    Ok(made)
}

/// The double description list: the echelon basis of the first part both ways, and then the second part.
pub(crate) fn double_list(
    alloc: Global,
    cols: usize,
    first: &[Ints],
    second: &[Ints],
    wide: bool,
) -> Result<Vec<Ints>, DdFail>
    requires first_cols { HasCols cols first.now }
    requires few_first { length first.now < 2 ^ 31 }
    requires few_columns { cols < 2 ^ 31 }
    ensures list { IfOk result (λ v. IsDoubleList cols first.now second.now v.items) }
    ensures wide { IfErr result (IsEliminationFail cols first.now) }
    ensures lost { wide ≡ true → IfErr result (λ f. IfWide f (IsLost cols first.now)) }
{
    let basis = echelon_by(alloc, first, cols, wide)?;
    let signs = both_ways(alloc, &basis.rows)?;
    Ok(add_copies(alloc, second, signs)?)
}
