//! Elimination of whole rows: echelon bases, ranks, null spaces and dual rows, each exact or with evidence that a
//! step leaves the range. By wide numbers on the way the same are found of more rows, or given up. It knows nothing
//! of faces, properties and objects.
#![tactic(auto)]

ghost use Rattle.pm_elim.specs.LostExamples.{LostEliminationsAreRead, LostStepsAreRead};

mod basis;
mod duals;
mod either_way;
mod elimination;
mod evidence;
mod extended;
mod factors;
mod marks;
mod modulo;
mod nulls;
mod older;
mod pivot;
mod reduction;
mod refusal;
mod round;
mod sign;
mod step;
mod wide_bases;
mod wide_duals;
mod wide_modulo;
mod wide_nulls;
mod wide_rounds;

pub use basis::Echelon;
pub use duals::{dual_basis, law_dual_basis_is_unique};
pub use either_way::{dual_basis_by, echelon_by, enlarging_by, null_space_by, rank_by, reduced_by};
pub use elimination::{echelon, rank};
pub use evidence::{DualFail, ElimFail};
pub use factors::{Factors, cancelling_factors};
pub use marks::enlarging;
pub use modulo::reduce;
pub use nulls::null_space;
pub use wide_bases::{wide_echelon, wide_enlarging, wide_rank};
pub use wide_modulo::wide_reduced;
pub use wide_nulls::{wide_dual_basis, wide_null_space};
pub use wide_rounds::WideFail;

/// Which steps of an elimination by wide numbers are lost, and which eliminations: one that numbers of the range
/// refuse is not, since its rows are in the range when they are made primitive.
pub fn example_lost()
    ensures steps { LostStepsAreRead }
    ensures eliminations { LostEliminationsAreRead }
{}
