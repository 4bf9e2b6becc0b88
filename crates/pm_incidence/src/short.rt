// Products of short rows, in 64 bits.

ghost use Rattle.pm_vector.specs.Rows.{dot};
ghost use Rattle.pm_incidence.specs.Incidence.{places_from};
ghost use Rattle.pm_incidence.specs.Short.{IsLittle, IsShort};
ghost use Rattle.std.specs.Prelude.{All, IfOk, IsTrue, length, unsigned_abs, ◌==◌, ◌<◌, ◌^◌, ◌≡◌, ◌↔◌};

use pm_vector::Ints;
use std::alloc::{AllocError, Global};

/// Entries of short rows are below this in absolute value.
const LIMIT: i128 = 1 << 28;

/// A short row has at most so many entries.
const MOST_ENTRIES: usize = 64;

/// Whether a number is so little that it may be an entry of a short row.
fn is_little(x: i128) -> bool
    ensures { IsTrue result ↔ IsLittle x }
{
    -LIMIT < x && x < LIMIT
}

/// Whether each entry of a row is so little.
fn all_little(entries: &[i128]) -> bool
    ensures { IsTrue result ↔ All IsLittle entries.now }
{
    entries.iter().all(|x| is_little(*x))
}

/// Whether a row is short.
fn is_short(row: &Ints) -> bool
    ensures { IsTrue result ↔ IsShort row.now }
{
    row.len() <= MOST_ENTRIES && all_little(row.as_slice())
}

/// Whether all rows are short.
fn are_short(rows: &[Ints]) -> bool
    ensures { IsTrue result ↔ All IsShort rows.now }
{
    rows.iter().all(|row| is_short(row))
}

/// Whether all rows of two lists are short.
pub(crate) fn are_both_short(first: &[Ints], second: &[Ints]) -> bool
    ensures { IsTrue result ↔ (All IsShort first.now × All IsShort second.now) }
{
    are_short(first) && are_short(second)
}

/// The sum of the products of the entries of two short rows.
pub(crate) fn short_dot(a: &[i128], b: &[i128]) -> i64
    requires same_length { length a.now ≡ length b.now }
    requires a { IsShort a.now }
    requires b { IsShort b.now }
    ensures { result ≡ dot a.now b.now }
{
    let mut sum = 0i64;
    for i in 0..a.len() {
        sum += a[i] as i64 * b[i] as i64;
    }
    sum
}

/// Whether the product of two short rows of one length is 0.
fn short_vanishes(facet: &Ints, vertex: &Ints) -> bool
    requires same_length { length facet.now ≡ length vertex.now }
    requires facet { IsShort facet.now }
    requires vertex { IsShort vertex.now }
    ensures { result ≡ (unsigned_abs (dot facet.now vertex.now) == 0) }
{
    short_dot(facet.as_slice(), vertex.as_slice()) == 0
}

/// The places of the vertices on a facet, of short rows.
pub(crate) fn short_places(
    alloc: Global,
    facet: &Ints,
    vertices: &[Ints],
) -> Result<Vec<u32>, AllocError>
    requires cols { All (λ v. length v ≡ length facet.now) vertices.now }
    requires few { length vertices.now < 2 ^ 30 }
    requires facet { IsShort facet.now }
    requires vertices { All IsShort vertices.now }
    ensures { IfOk result (λ r. r.items ≡ places_from 0 facet.now vertices.now) }
{
    let mut places = Vec::new(alloc);
    for (j, vertex) in vertices.iter().enumerate() {
        if short_vanishes(facet, vertex) {
            places.push(j as u32)?;
        }
    }
    Ok(places)
}
