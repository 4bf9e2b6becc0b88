// In which order the rows are taken.

ghost use Rattle.pm_vector.specs.Rows.{HasCols};
ghost use Rattle.pm_dd.specs.Arrangement.{IsArrangement};
ghost use Rattle.pm_dd.specs.Lost.{IfWide};
ghost use Rattle.pm_dd.specs.Refusals.{IsShown};
ghost use Rattle.pm_elim.specs.Lost.{IsLost};
ghost use Rattle.pm_geom.specs.StatedOrder.{rows_marked};
ghost use Rattle.std.specs.Prelude.{IfErr, IfOk, [], length, true, ◌*◌, ◌++◌, ◌+◌, ◌<◌, ◌^◌, ◌≡◌, ◌≤◌};

use crate::fails::DdFail;
use crate::leading::{leading_equations, leading_pairs};
use pm_elim::enlarging_by;
use pm_vector::Ints;
use std::alloc::{AllocError, Global};

/// The rows as they are taken: equations, and inequalities of which the first `start` are independent, together with
/// the equations.
#[derive(Drop)]
pub(crate) struct Arrangement {
    pub equations: Vec<Ints>,
    pub rows: Vec<Ints>,
    pub start: usize,
}

/// Copies of the rows that have this mark, put behind others.
fn add_marked(
    alloc: Global,
    rows: &[Ints],
    marks: &[bool],
    mark: bool,
    others: Vec<Ints>,
) -> Result<Vec<Ints>, AllocError>
    requires { length marks.now ≡ length rows.now }
    ensures { IfOk result (λ v. v.items ≡ others.items ++ rows_marked mark marks.now rows.now) }
{
    let mut made = others;
    for (i, row) in rows.iter().enumerate() {
        if marks[i] == mark {
            made.push(row.copy(alloc)?)?;
        }
    }
    Ok(made)
}

/// The rows in the stated order: first those that enlarge the span of those before them. Rows that lead with their
/// opposites are taken as equations.
pub(crate) fn arranged(
    alloc: Global,
    rows: &[Ints],
    cols: usize,
    wide: bool,
) -> Result<Arrangement, DdFail>
    requires columns { HasCols cols rows.now }
    requires few_rows { length rows.now < 2 ^ 32 }
    requires few_columns { cols < 2 ^ 31 }
    ensures arranged { IfOk result (λ a. IsArrangement rows.now a.equations.items a.rows.items a.start) }
    ensures few_rows { IfOk result (λ a. length a.rows.items + 2 * length a.equations.items < 2 ^ 32) }
    ensures shown { IfErr result (λ f. IsShown cols rows.now f) }
    ensures lost { wide ≡ true → IfErr result (λ f. IfWide f (IsLost cols rows.now)) }
{
    let marks = enlarging_by(alloc, rows, cols, wide)?;
    let pairs = leading_pairs(alloc, rows)?;
    let equations = leading_equations(alloc, rows, &marks, pairs)?;
    let lead = 2 * equations.len();
    let first = add_marked(alloc, &rows[lead..], &marks[lead..], true, Vec::new(alloc))?;
    let start = first.len();
    let ordered = add_marked(alloc, &rows[lead..], &marks[lead..], false, first)?;
    Ok(Arrangement {
        equations,
        rows: ordered,
        start,
    })
}
