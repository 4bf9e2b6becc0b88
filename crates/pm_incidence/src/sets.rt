// Which vertices lie on which facets.

ghost use Rattle.pm_vector.specs.Rows.{dot};
ghost use Rattle.pm_incidence.specs.Incidence.{AllStay, IsWideFor, incidence, places_from};
ghost use Rattle.pm_incidence.specs.Short.{IsShort};
ghost use Rattle.pm_types.specs.Right.{IsIncidence};
ghost use Rattle.pm_vector.specs.Products.{ProductsStay};
ghost use Rattle.std.specs.Prelude.{All, IfErr, IfOk, IsTrue, OnOk, [], false, length, true, unsigned_abs, ◌==◌, ◌<◌, ◌^◌, ◌∷◌, ◌≡◌};

use crate::fails::IncFail;
use crate::short::{are_both_short, short_places};
use pm_geom::Evidence;
use pm_types::Sets;
use pm_vector::{Ints, dot, wide_dot};
use std::alloc::{AllocError, Global};

// Whether the product of two rows of one length is 0; with the word, however wide it is.
fn vanishes(alloc: Global, facet: &Ints, vertex: &Ints, wide: bool) -> Result<bool, IncFail>
    requires { length facet.now ≡ length vertex.now }
    ensures value { IfOk result (λ b. b ≡ (unsigned_abs (dot facet.now vertex.now) == 0)) }
    ensures stays { wide ≡ false → OnOk result (AllStay (facet.now ∷ []) (vertex.now ∷ [])) }
    ensures failed { IfErr result (IsWideFor (facet.now ∷ []) (vertex.now ∷ [])) }
    ensures total { wide ≡ true → IfErr result (λ e. e ≡ IncFail.Memory) }
{
    if let Ok(product) = dot(facet.as_slice(), vertex.as_slice()) {
        return Ok(is_zero(product));
    }
    if wide {
        return Ok(vanishes_exactly(facet, vertex));
    }
    Err(wide_rows(alloc, facet, vertex)?)
}

// The same by wide numbers.
fn vanishes_exactly(facet: &Ints, vertex: &Ints) -> bool
    requires { length facet.now ≡ length vertex.now }
    ensures { result ≡ (unsigned_abs (dot facet.now vertex.now) == 0) }
{
    wide_dot(facet.as_slice(), vertex.as_slice()).is_zero()
}

fn is_zero(k: i128) -> bool
    ensures { result ≡ (unsigned_abs k == 0) }
{
    k == 0
}

// The evidence of two rows whose product leaves the range.
fn wide_rows(alloc: Global, facet: &Ints, vertex: &Ints) -> Result<IncFail, AllocError>
    requires { ProductsStay facet.now vertex.now → ⊥ }
    ensures { IfOk result (IsWideFor (facet.now ∷ []) (vertex.now ∷ [])) }
{
    Ok(IncFail::Wide(Evidence::E4 {
        first: vertex.copy(alloc)?,
        second: facet.copy(alloc)?,
    }))
}

// The places of the vertices on a facet.
fn places(alloc: Global, facet: &Ints, vertices: &[Ints], wide: bool) -> Result<Vec<u32>, IncFail>
    requires cols { All (λ v. length v ≡ length facet.now) vertices.now }
    requires few { length vertices.now < 2 ^ 30 }
    ensures ok { IfOk result (λ r. r.items ≡ places_from 0 facet.now vertices.now) }
    ensures stays { wide ≡ false → OnOk result (AllStay (facet.now ∷ []) vertices.now) }
    ensures failed { IfErr result (IsWideFor (facet.now ∷ []) vertices.now) }
    ensures total { wide ≡ true → IfErr result (λ e. e ≡ IncFail.Memory) }
{
    let mut places = Vec::new(alloc);
    for (j, vertex) in vertices.iter().enumerate() {
        let on = vanishes(alloc, facet, vertex, wide)?;
        if on {
            places.push(j as u32)?;
        }
    }
    Ok(places)
}

// The places of the vertices on a facet, by the quick product where the rows are known to be short.
fn places_by(
    alloc: Global,
    facet: &Ints,
    vertices: &[Ints],
    short: bool,
    wide: bool,
) -> Result<Vec<u32>, IncFail>
    requires cols { All (λ v. length v ≡ length facet.now) vertices.now }
    requires few { length vertices.now < 2 ^ 30 }
    requires short { IsTrue short → IsShort facet.now × All IsShort vertices.now }
    ensures ok { IfOk result (λ r. r.items ≡ places_from 0 facet.now vertices.now) }
    ensures stays { wide ≡ false → OnOk result (AllStay (facet.now ∷ []) vertices.now) }
    ensures failed { IfErr result (IsWideFor (facet.now ∷ []) vertices.now) }
    ensures total { wide ≡ true → IfErr result (λ e. e ≡ IncFail.Memory) }
{
    if short {
        return Ok(short_places(alloc, facet, vertices)?);
    }
    places(alloc, facet, vertices, wide)
}

/// For each facet row the places of the rays on which it vanishes, of rows of one length. It fails exactly where a
/// product leaves the range, with two rows of such a product as evidence. With `wide` it finds them also there, by wide
/// numbers, and fails for want of memory alone.
pub fn incidence(
    alloc: Global,
    facets: &[Ints],
    vertices: &[Ints],
    wide: bool,
) -> Result<Sets, IncFail>
    requires cols { All (λ f. All (λ v. length v ≡ length f) vertices.now) facets.now }
    requires few { length vertices.now < 2 ^ 30 }
    ensures ok { IfOk result (λ r. r
        ≡ record { rows = incidence facets.now vertices.now; cols = length vertices.now }) }
    ensures right { IfOk result (λ r. IsIncidence facets.now vertices.now r.rows) }
    ensures stays { wide ≡ false → OnOk result (AllStay facets.now vertices.now) }
    ensures failed { IfErr result (IsWideFor facets.now vertices.now) }
    ensures total { wide ≡ true → IfErr result (λ e. e ≡ IncFail.Memory) }
{
    let short = are_both_short(facets, vertices);
    let mut rows = Vec::new(alloc);
    for facet in facets {
        rows.push(places_by(alloc, facet, vertices, short, wide)?)?;
    }
    Ok(Sets::from_vec(rows, vertices.len() as u32))
}
