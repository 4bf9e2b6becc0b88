// The h-vector of an f-vector.
ghost use Rattle.pm_geom.specs.FaceCounts.{binom, f_before, h_entry, h_of};
ghost use Rattle.pm_graph.specs.HVectors.{AreHNumbers, HasNoHVector, HaveFit, plain_term};
ghost use Rattle.std.specs.Prelude.{IfOk, [], length, neg_ℤ, pos, ◌^◌, ◌≡◌, ◌≤◌, ◌≤ℤ◌};
ghost use Rattle.pm_limits.specs.Limits.{most_dimensions};

use pm_limits::MOST_DIMENSIONS;
use std::alloc::{AllocError, Global};

// How many sets of k there are among n things.
fn choose(n: usize, k: usize) -> u64
    requires few { n ≤ most_dimensions }
    requires within { k ≤ n }
    ensures { result ≡ binom n k }
{
    let mut count = 1;
    for step in 0..n - k {
        count = count * (k + step + 1) as u64 / (step + 1) as u64;
    }
    count
}

// f_(i-1), of which the first is f_(-1) = 1.
fn before(f: &[i64], i: usize) -> i64
    requires { i ≤ length f.now }
    ensures { result ≡ f_before f.now i }
{
    if i == 0 { 1 } else { f[i - 1] }
}

// The term of i in h_k without its sign.
fn term(f: &[i64], d: usize, k: usize, i: usize) -> i128
    requires few { d ≤ most_dimensions }
    requires entries { length f.now ≡ d }
    requires k_within { k ≤ d }
    requires i_within { i ≤ k }
    ensures value { result ≡ plain_term f.now d k i }
    ensures low { neg_ℤ (pos (2 ^ 96)) ≤ℤ result }
    ensures high { result ≤ℤ pos (2 ^ 96) }
{
    let count = i128::from(choose(d - i, d - k));
    let faces = i128::from(before(f, i));
    count * faces
}

// h_k: the terms from 0 to k, with signs that alternate so that the last is positive.
fn h_number(f: &[i64], d: usize, k: usize) -> i128
    requires few { d ≤ most_dimensions }
    requires entries { length f.now ≡ d }
    requires within { k ≤ d }
    ensures { result ≡ h_entry f.now d k }
{
    let mut sum = 0;
    for i in 0..k + 1 {
        sum = term(f, d, k, i) - sum;
    }
    sum
}

// The h-vector, or no entries where a number does not fit 64 bits.
fn numbers(alloc: Global, f: &[i64], d: usize) -> Result<Vec<i64>, AllocError>
    requires few { d ≤ most_dimensions }
    requires entries { length f.now ≡ d }
    ensures numbers { IfOk result (λ h. HaveFit f.now d → h.items ≡ h_of f.now d) }
    ensures none { IfOk result (λ h. ¬ (HaveFit f.now d) → h.items ≡ []) }
{
    let mut numbers = Vec::new(alloc);
    for k in 0..d + 1 {
        let Ok(number) = i64::try_from(h_number(f, d, k)) else {
            return Ok(Vec::new(alloc));
        };
        numbers.push(number)?;
    }
    Ok(numbers)
}

/// The h-vector of an f-vector of dimension d: d + 1 numbers. It has no entries where d is not from 0 to 32, where f
/// has not d entries, and where one of the numbers does not fit 64 bits.
pub fn h_vector(alloc: Global, f: &[i64], d: i64) -> Result<Vec<i64>, AllocError>
    ensures numbers { IfOk result (λ h. AreHNumbers f.now d h.items) }
    ensures none { IfOk result (λ h. HasNoHVector f.now d → h.items ≡ []) }
{
    match usize::try_from(d) {
        Ok(dim) if dim <= MOST_DIMENSIONS && f.len() == dim => numbers(alloc, f, dim),
        _ => Ok(Vec::new(alloc)),
    }
}
