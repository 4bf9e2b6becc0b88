// Products of one row with others.

ghost use Rattle.pm_vector.specs.Rows.{HasCols, dot as dot_of};
ghost use Rattle.pm_geom.specs.declared.evidence.Evidence.TheVariants.{E4};
ghost use Rattle.pm_simplex.specs.OptimumEvidence.{ShowsProduct};
ghost use Rattle.pm_simplex.specs.Fails.{IfWide};
ghost use Rattle.pm_simplex.specs.declared.fails.LpFail.TheVariants as fail;
ghost use Rattle.std.specs.Prelude.{IfErr, IfOk, length, map, ◌≡◌};

use pm_geom::Evidence;
use pm_simplex::LpFail;
use pm_vector::{Ints, Wide, dot};
use std::alloc::{AllocError, Global};

/// The refusal that names two rows.
pub(crate) fn wide_pair(alloc: Global, first: &Ints, second: &Ints) -> Result<LpFail, AllocError>
    ensures { IfOk result (λ f. f ≡ fail.Wide (E4 first.now second.now)) }
{
    Ok(LpFail::Wide(Evidence::E4 {
        first: first.copy(alloc)?,
        second: second.copy(alloc)?,
    }))
}

/// The products of a row with each of the rows.
pub(crate) fn products(alloc: Global, row: &Ints, rows: &[Ints]) -> Result<Ints, LpFail>
    requires cols { HasCols (length row.now) rows.now }
    ensures products { IfOk result (λ p. p ≡ map (dot_of row.now) rows.now) }
    ensures wide { IfErr result (λ f. IfWide f (ShowsProduct row.now rows.now)) }
{
    let mut numbers = Ints::new(alloc);
    for x in rows {
        match dot(row.as_slice(), x.as_slice()) {
            Ok(product) => numbers.push(product)?,
            Err(Wide) => return Err(wide_pair(alloc, row, x)?),
        }
    }
    Ok(numbers)
}
