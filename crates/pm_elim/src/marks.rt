// Which rows of a list enlarge the span of those before them.

ghost use Rattle.pm_vector.specs.Rows.{HasCols};
ghost use Rattle.pm_vector.specs.Enlarging.{MarkEnlarging};
ghost use Rattle.pm_elim.specs.Refusals.{IfWide};
ghost use Rattle.pm_vector.specs.Evidence.{IsEvidence, NoEvidence};
ghost use Rattle.std.specs.Prelude.{IfErr, IfOk, OnOk, length, ◌<◌, ◌^◌, ◌≡◌};

use crate::basis::Growing;
use crate::elimination::fail_of;
use crate::evidence::ElimFail;
use crate::round::take_in;
use pm_vector::{ElimList, Ints};
use std::alloc::Global;

/// Marks the rows, of `cols` entries each, that enlarge the span of those before them: one mark for each row, in
/// order.
/// `Wide` exactly where a step of the elimination of the rows leaves the range; the evidence is on the list `Rows`.
pub fn enlarging(alloc: Global, rows: &[Ints], cols: usize) -> Result<Vec<bool>, ElimFail>
    requires columns { HasCols cols rows.now }
    requires few_rows { length rows.now < 2 ^ 32 }
    requires few_columns { cols < 2 ^ 31 }
    ensures marks { IfOk result (λ m. MarkEnlarging rows.now m.items) }
    ensures never_wide { OnOk result (NoEvidence cols rows.now ElimList.Rows) }
    ensures wide { IfErr result (λ f. IfWide f (λ e. IsEvidence cols rows.now e)) }
    ensures list { IfErr result (λ f. IfWide f (λ e. e.list ≡ ElimList.Rows)) }
{
    let mut basis = Growing {
        rows: Vec::new(alloc),
        pivots: Vec::new(alloc),
    };
    let mut marks = Vec::new(alloc);
    for i in 0..rows.len() {
        let before = basis.rows.len();
        if let Err(refusal) = take_in(alloc, &mut basis, &rows[i]) {
            return Err(fail_of(refusal, ElimList::Rows, i, basis.rows));
        }
        marks.push(basis.rows.len() > before)?;
    }
    Ok(marks)
}
