// The reduction of a row by an echelon basis.

ghost use Rattle.pm_vector.specs.Rows.{HasCols, entry};
ghost use Rattle.pm_vector.specs.Bases.{IsEchelonBasis, column};
ghost use Rattle.pm_elim.specs.Refusals.{IfWide, IfWideStep, IsReductionFail};
ghost use Rattle.pm_vector.specs.Evidence.{IsEvidence};
ghost use Rattle.pm_vector.specs.Steps.{ReducedBy, SameDirectionModulo};
ghost use Rattle.pm_vector.specs.EliminationSteps.{EliminationStep};
ghost use Rattle.std.specs.Prelude.{IfErr, IfOk, OnErr, OnOk, [], length, pos, ◌++◌, ◌<◌, ◌^◌, ◌∷◌, ◌≡◌, ℕ};

use crate::basis::Echelon;
use crate::elimination::fail_of;
use crate::evidence::ElimFail;
use crate::reduction::reduced_copy;
use crate::refusal::Refusal;
use pm_vector::{ElimList, Ints, copies};
use std::alloc::{AllocError, Global};

/// The refusal of a reduction.
fn reduction_fail(alloc: Global, basis: &[Ints], refusal: Refusal) -> ElimFail
    requires few_rows { length basis.now < 2 ^ 32 }
    requires small_step { IfWideStep refusal (λ s. (s.by < 2 ^ 32) × (s.column < 2 ^ 32)) }
    ensures { IsReductionFail refusal basis.now result }
{
    match copies(alloc, basis) {
        Ok(rows) => fail_of(refusal, ElimList::Rows, rows.len(), rows),
        Err(AllocError) => ElimFail::Memory,
    }
}

/// Reduces a row by the rows of an echelon basis, with these pivot columns.
fn reduce_by(alloc: Global, rows: &[Ints], pivots: &[usize], row: &mut Ints) -> Result<(), ElimFail>
    requires is_basis { IsEchelonBasis (length row.old) rows.now pivots.now }
    requires few_columns { length row.old < 2 ^ 32 }
    ensures reduced { OnOk result (ReducedBy rows.now pivots.now row.old row.new) }
    ensures zero { OnOk result ((i : ℕ) → i < length rows.now
        → entry row.new (column pivots.now i) ≡ pos 0) }
    ensures direction { OnOk result (SameDirectionModulo rows.now row.old row.new) }
    ensures never_wide { OnOk result ((e : EliminationStep) → e.list ≡ ElimList.Rows → e.by < length rows.now
        → IsEvidence (length row.old) (rows.now ++ row.old ∷ []) e → ⊥) }
    ensures wide { IfErr result (λ f.
        IfWide f (λ e. IsEvidence (length row.old) (rows.now ++ row.old ∷ []) e)) }
    ensures list { IfErr result (λ f. IfWide f (λ e. e.list ≡ ElimList.Rows)) }
    ensures by_basis_row { IfErr result (λ f. IfWide f (λ e. e.by < length rows.now)) }
    ensures unchanged { OnErr result (row.new ≡ row.old) }
{
    match reduced_copy(alloc, rows, pivots, row) {
        Ok(rest) => {
            *row = rest;
            Ok(())
        }
        Err(refusal) => Err(reduction_fail(alloc, rows, refusal)),
    }
}

/// Reduces a row by all rows of an echelon basis: the row is then 0 in the pivot columns, and keeps its direction
/// modulo their span.
/// `Wide` exactly where a step of this reduction leaves the range; the evidence is on the list `Rows` of the basis
/// rows and then the row. The row is unchanged after a refusal.
pub fn reduce(alloc: Global, basis: &Echelon, row: &mut Ints) -> Result<(), ElimFail>
    requires cols { HasCols (length row.old) basis.now.rows }
    requires few_columns { length row.old < 2 ^ 32 }
    ensures reduced { OnOk result (ReducedBy basis.now.rows basis.now.pivots row.old row.new) }
    ensures zero { OnOk result ((i : ℕ) → i < length basis.now.rows
        → entry row.new (column basis.now.pivots i) ≡ pos 0) }
    ensures direction { OnOk result (SameDirectionModulo basis.now.rows row.old row.new) }
    ensures never_wide { OnOk result ((e : EliminationStep) → e.list ≡ ElimList.Rows
        → e.by < length basis.now.rows → IsEvidence (length row.old) (basis.now.rows ++ row.old ∷ []) e
        → ⊥) }
    ensures wide { IfErr result (λ f.
        IfWide f (λ e. IsEvidence (length row.old) (basis.now.rows ++ row.old ∷ []) e)) }
    ensures list { IfErr result (λ f. IfWide f (λ e. e.list ≡ ElimList.Rows)) }
    ensures by_basis_row { IfErr result (λ f. IfWide f (λ e. e.by < length basis.now.rows)) }
    ensures unchanged { OnErr result (row.new ≡ row.old) }
{
    reduce_by(alloc, &basis.rows, &basis.pivots, row)
}
