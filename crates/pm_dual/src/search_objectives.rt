// What a search goes by in place of an objective.

ghost use Rattle.pm_dual.specs.SearchObjectives.{IsConstant, IsSearchObjective};
ghost use Rattle.std.specs.Prelude.{IfOk, IsTrue, ◌↔◌};

use std::alloc::{AllocError, Global};

/// Whether all numbers but the first are 0, so that any point will do.
pub(crate) fn is_constant(row: &[i128]) -> bool
    ensures { IsTrue result ↔ IsConstant row.now }
{
    for i in 1..row.len() {
        if row[i] != 0 {
            return false;
        }
    }
    true
}

/// The objective that a search goes by: where any point will do that of ones, since steps that lose nothing may go in
/// a circle.
pub fn search_objective(alloc: Global, objective: &[i128]) -> Result<Vec<i128>, AllocError>
    ensures { IfOk result (λ v. IsSearchObjective objective.now v.items) }
{
    if is_constant(objective) {
        return vec![in alloc; 1; objective.len()];
    }
    Vec::from_slice(alloc, objective)
}
