// The reduction of a row by the rows of a basis, in turn.

ghost use Rattle.pm_vector.specs.Bases.{IsEchelonBasis};
ghost use Rattle.pm_vector.specs.Evidence.{IsWideOnNext};
ghost use Rattle.pm_elim.specs.Refusals.{IfWideStep};
ghost use Rattle.pm_vector.specs.Steps.{ReducedBy, ReductionStays};
ghost use Rattle.std.specs.Prelude.{IfErr, IfOk, OnOk, length, ◌<◌};

use crate::refusal::{Refusal, WideStep};
use crate::step::reduce_once;
use pm_vector::Ints;
use std::alloc::Global;

/// The basis row whose step leaves the range, and a column where it does.
#[derive(Drop)]
struct WideAt {
    pub by: usize,
    pub column: usize,
}

/// Reduces a row by the rows of an echelon basis, in turn. At an error the row is reduced by the rows before the one
/// of that step.
fn reduce_in_turn(rows: &[Ints], pivots: &[usize], row: &mut Ints) -> Result<(), WideAt>
    requires { IsEchelonBasis (length row.old) rows.now pivots.now }
    ensures reduced { OnOk result (ReducedBy rows.now pivots.now row.old row.new) }
    ensures stays { OnOk result (ReductionStays rows.now pivots.now row.old) }
    ensures wide { IfErr result (λ w. IsWideOnNext rows.now pivots.now row.old row.new w.by w.column) }
    ensures within { IfErr result (λ w. w.column < length row.old) }
{
    for i in 0..rows.len() {
        if let Err(column) = reduce_once(row, &rows[i], pivots[i]) {
            return Err(WideAt { by: i, column });
        }
    }
    Ok(())
}

/// A copy of a row, reduced by the rows of an echelon basis, in turn.
pub(crate) fn reduced_copy(
    alloc: Global,
    rows: &[Ints],
    pivots: &[usize],
    row: &Ints,
) -> Result<Ints, Refusal>
    requires { IsEchelonBasis (length row.now) rows.now pivots.now }
    ensures reduced { IfOk result (λ r. ReducedBy rows.now pivots.now row.now r) }
    ensures stays { OnOk result (ReductionStays rows.now pivots.now row.now) }
    ensures wide { IfErr result (λ f.
        IfWideStep f (λ s. IsWideOnNext rows.now pivots.now row.now s.part s.by s.column)) }
    ensures within { IfErr result (λ f. IfWideStep f (λ s. s.column < length row.now)) }
{
    let mut rest = row.copy(alloc)?;
    match reduce_in_turn(rows, pivots, &mut rest) {
        Ok(()) => Ok(rest),
        Err(at) => Err(Refusal::Wide(WideStep {
            part: rest,
            by: at.by,
            column: at.column,
        })),
    }
}
