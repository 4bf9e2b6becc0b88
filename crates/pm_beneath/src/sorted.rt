// Sets of places in lexicographic order.

ghost use Rattle.pm_laws_placing.specs.PlacedCells.{HaveSameSets};
ghost use Rattle.pm_geom.specs.FaceCounts.{IsLexBefore};
ghost use Rattle.std.specs.Prelude.{AllPairs, IfOk, length, map, ◌≡◌, ◌≤◌};

use std::alloc::AllocError;

/// The same sets, each once, in lexicographic order. Where they differ, there are as many.
pub(crate) fn in_order(sets: Vec<Vec<u32>>) -> Result<Vec<Vec<u32>>, AllocError>
    ensures same { IfOk result (λ v.
        HaveSameSets (map (λ set. set.items) v.items) (map (λ set. set.items) sets.items)) }
    ensures ordered { IfOk result (λ v. AllPairs IsLexBefore (map (λ set. set.items) v.items)) }
    ensures few { IfOk result (λ v. length v.items ≤ length sets.items) }
    ensures as_many { AllPairs (λ s t. ¬ (s ≡ t)) (map (λ set. set.items) sets.items)
        → IfOk result (λ v. length v.items ≡ length sets.items) }
{
    let mut made = sets;
    made.sort()?;
    made.dedup();
    Ok(made)
}
