// The kernels: loops over the words that hold a row's bits. Whole chunks of four words go by vectors of four
// lanes, and the words that are left go one by one.
ghost use Rattle.std.specs.Prelude.{◌≡◌, ℕ, ◌+◌, ◌*◌, ◌/◌, ◌<◌, ◌≤◌, ◌↔◌, ◌&&◌, ◌||◌, IsTrue, IfOk, OnOk, replicate, length, bit_and, bit_or, true, ◌≢◌, ◌^◌};
ghost use Rattle.std.specs.List.{filter, range_with_len};
ghost use Rattle.std.specs.Ordering.{MatchOrdering};
ghost use Rattle.std.specs.Simd.Lanes.{chunk, zip2, put_chunk};
ghost use Rattle.std.specs.Prelude.{slice_index};
ghost use Rattle.pm_bits.specs.Words.{has_bit, bit_count, set_bits, EachWord, IsWithin, AreMade, AreFolded, StayAsTheyWere, HasFirstBit, HasLowestBit};

use std::alloc::{AllocError, Global};
use std::cmp::Ordering;
use std::simd::prelude::*;

const LANES: usize = 4;

/// Words with no bit set.
pub(crate) fn zeros(alloc: Global, count: usize) -> Result<Vec<u64>, AllocError>
    ensures { IfOk result (λ words. words.items ≡ replicate count 0) }
{
    vec![in alloc; 0; count]
}

// The four words from `start` on.
fn lanes_at(words: &[u64], start: usize) -> u64x4
    requires { start + LANES ≤ length words.now }
    ensures { result ≡ chunk start LANES words.now }
{
    u64x4::from_slice(&words[start..start + LANES])
}

// Whether each bit of y is one of x, lane by lane.
fn lanes_contain(x: u64x4, y: u64x4) -> bool
    ensures { IsTrue result ↔ (zip2 bit_and x y ≡ y) }
{
    (x & y).to_array() == y.to_array()
}

fn lanes_are_equal(x: u64x4, y: u64x4) -> bool
    ensures { IsTrue result ↔ (x ≡ y) }
{
    x.to_array() == y.to_array()
}

// Whether each bit of b is one of a, at the four words from `start` on.
fn chunk_contains(a: &[u64], b: &[u64], start: usize) -> bool
    requires in_a { start + LANES ≤ length a.now }
    requires in_b { start + LANES ≤ length b.now }
    ensures { IsTrue result ↔ EachWord IsWithin start (start + LANES) a.now b.now }
{
    lanes_contain(lanes_at(a, start), lanes_at(b, start))
}

// Whether the four words from `start` on are the same.
fn chunk_is_equal(a: &[u64], b: &[u64], start: usize) -> bool
    requires in_a { start + LANES ≤ length a.now }
    requires in_b { start + LANES ≤ length b.now }
    ensures { IsTrue result ↔ EachWord (λ x y. x ≡ y) start (start + LANES) a.now b.now }
{
    lanes_are_equal(lanes_at(a, start), lanes_at(b, start))
}

// Whether each bit of b is one of a, at the words of the whole chunks.
fn chunks_contain(a: &[u64], b: &[u64]) -> bool
    requires { length a.now ≡ length b.now }
    ensures { IsTrue result ↔ EachWord IsWithin 0 (length a.now / LANES * LANES) a.now b.now }
{
    for chunk in 0..a.len() / LANES {
        if !chunk_contains(a, b, chunk * LANES) {
            return false;
        }
    }
    true
}

// Whether each bit of b is one of a, at the words from `start` on.
fn rest_contains(a: &[u64], b: &[u64], start: usize) -> bool
    requires { length a.now ≡ length b.now }
    ensures { IsTrue result ↔ EachWord IsWithin start (length a.now) a.now b.now }
{
    for i in start..a.len() {
        if a[i] & b[i] != b[i] {
            return false;
        }
    }
    true
}

/// Whether each bit of b is one of a: by lanes over the whole chunks, and by words over the rest.
pub(crate) fn contain(a: &[u64], b: &[u64]) -> bool
    requires { length a.now ≡ length b.now }
    ensures { IsTrue result ↔ ((i : ℕ) → IsTrue (has_bit b.now i) → IsTrue (has_bit a.now i)) }
{
    chunks_contain(a, b) && rest_contains(a, b, a.len() / LANES * LANES)
}

// Whether the words of the whole chunks are the same.
fn chunks_are_equal(a: &[u64], b: &[u64]) -> bool
    requires { length a.now ≡ length b.now }
    ensures { IsTrue result ↔ EachWord (λ x y. x ≡ y) 0 (length a.now / LANES * LANES) a.now b.now }
{
    for chunk in 0..a.len() / LANES {
        if !chunk_is_equal(a, b, chunk * LANES) {
            return false;
        }
    }
    true
}

// Whether the words from `start` on are the same.
fn rest_is_equal(a: &[u64], b: &[u64], start: usize) -> bool
    requires { length a.now ≡ length b.now }
    ensures { IsTrue result ↔ EachWord (λ x y. x ≡ y) start (length a.now) a.now b.now }
{
    for i in start..a.len() {
        if a[i] != b[i] {
            return false;
        }
    }
    true
}

/// Whether the same bits are set: by lanes over the whole chunks, and by words over the rest.
pub(crate) fn are_equal(a: &[u64], b: &[u64]) -> bool
    requires { length a.now ≡ length b.now }
    ensures { IsTrue result ↔ ((i : ℕ) → has_bit a.now i ≡ has_bit b.now i) }
{
    chunks_are_equal(a, b) && rest_is_equal(a, b, a.len() / LANES * LANES)
}

// Writes the bits that a and b share into the four words of `out` from `start` on.
fn meet_chunk(a: &[u64], b: &[u64], out: &mut [u64], start: usize)
    requires in_a { start + LANES ≤ length a.now }
    requires in_b { start + LANES ≤ length b.now }
    requires in_out { start + LANES ≤ length out.old }
    ensures met { AreMade bit_and start (start + LANES) a.now b.now out.new }
    ensures below { StayAsTheyWere 0 start out.old out.new }
{
    let both = lanes_at(a, start) & lanes_at(b, start);
    both.copy_to_slice(&mut out[start..start + LANES]);
}

// The same for the words of the whole chunks.
fn meet_chunks(a: &[u64], b: &[u64], out: &mut [u64])
    requires same_len { length a.now ≡ length b.now }
    requires out_len { length a.now ≡ length out.old }
    ensures { AreMade bit_and 0 (length a.now / LANES * LANES) a.now b.now out.new }
{
    for chunk in 0..a.len() / LANES {
        meet_chunk(a, b, out, chunk * LANES);
    }
}

// The same for the words from `start` on.
fn meet_rest(a: &[u64], b: &[u64], out: &mut [u64], start: usize)
    requires same_len { length a.now ≡ length b.now }
    requires out_len { length a.now ≡ length out.old }
    ensures met { AreMade bit_and start (length a.now) a.now b.now out.new }
    ensures below { StayAsTheyWere 0 start out.old out.new }
{
    for i in start..a.len() {
        out[i] = a[i] & b[i];
    }
}

/// Writes the bits that a and b share into `out`: by lanes over the whole chunks, and by words over the rest.
pub(crate) fn meet(a: &[u64], b: &[u64], out: &mut [u64])
    requires same_len { length a.now ≡ length b.now }
    requires out_len { length a.now ≡ length out.old }
    ensures { (i : ℕ) → has_bit out.new i ≡ (has_bit a.now i && has_bit b.now i) }
{
    meet_chunks(a, b, out);
    meet_rest(a, b, out, a.len() / LANES * LANES);
}

// Writes the bits of a and of b into the four words of `out` from `start` on.
fn join_chunk(a: &[u64], b: &[u64], out: &mut [u64], start: usize)
    requires in_a { start + LANES ≤ length a.now }
    requires in_b { start + LANES ≤ length b.now }
    requires in_out { start + LANES ≤ length out.old }
    ensures joined { AreMade bit_or start (start + LANES) a.now b.now out.new }
    ensures below { StayAsTheyWere 0 start out.old out.new }
{
    let either = lanes_at(a, start) | lanes_at(b, start);
    either.copy_to_slice(&mut out[start..start + LANES]);
}

// The same for the words of the whole chunks.
fn join_chunks(a: &[u64], b: &[u64], out: &mut [u64])
    requires same_len { length a.now ≡ length b.now }
    requires out_len { length a.now ≡ length out.old }
    ensures { AreMade bit_or 0 (length a.now / LANES * LANES) a.now b.now out.new }
{
    for chunk in 0..a.len() / LANES {
        join_chunk(a, b, out, chunk * LANES);
    }
}

// The same for the words from `start` on.
fn join_rest(a: &[u64], b: &[u64], out: &mut [u64], start: usize)
    requires same_len { length a.now ≡ length b.now }
    requires out_len { length a.now ≡ length out.old }
    ensures joined { AreMade bit_or start (length a.now) a.now b.now out.new }
    ensures below { StayAsTheyWere 0 start out.old out.new }
{
    for i in start..a.len() {
        out[i] = a[i] | b[i];
    }
}

/// Writes the bits of a and of b into `out`: by lanes over the whole chunks, and by words over the rest.
pub(crate) fn join(a: &[u64], b: &[u64], out: &mut [u64])
    requires same_len { length a.now ≡ length b.now }
    requires out_len { length a.now ≡ length out.old }
    ensures { (i : ℕ) → has_bit out.new i ≡ (has_bit a.now i || has_bit b.now i) }
{
    join_chunks(a, b, out);
    join_rest(a, b, out, a.len() / LANES * LANES);
}

// Puts the numbers whose bits are set in the word at k at the end of the list of those before.
fn push_members(words: &[u64], k: usize, list: &mut Vec<u32>) -> Result<(), AllocError>
    requires place { k < length words.now }
    requires few { length words.now ≤ 2 ^ 26 }
    requires before { list.old.items ≡ filter (has_bit words.now) (range_with_len 0 (k * 64)) }
    ensures { OnOk result (list.new.items ≡ filter (has_bit words.now) (range_with_len 0 ((k + 1) * 64))) }
{
    let mut rest = words[k];
    let mut next = k * 64;
    while rest != 0 {
        let skipped = rest.trailing_zeros();
        let member = next + skipped as usize;
        list.push(member as u32)?;
        next = member + 1;
        rest = (rest >> skipped) >> 1;
    }
    Ok(())
}

/// The numbers whose bits are set, ascending, in a list of just their length.
pub(crate) fn members(alloc: Global, words: &[u64]) -> Result<Vec<u32>, AllocError>
    requires { length words.now ≤ 2 ^ 26 }
    ensures { IfOk result (λ list. list.items ≡ set_bits words.now) }
{
    let mut list = Vec::with_capacity(alloc, count(words))?;
    for k in 0..words.len() {
        push_members(words, k, &mut list)?;
    }
    Ok(list)
}

/// How many bits are set, word by word.
pub(crate) fn count(words: &[u64]) -> usize
    requires { bit_count words.now < 2 ^ 64 }
    ensures { result ≡ bit_count words.now }
{
    let mut ones = 0;
    for word in words {
        ones += word.count_ones() as usize;
    }
    ones
}

/// How many bits a and b have in common, word by word.
pub(crate) fn common_count(a: &[u64], b: &[u64]) -> usize
    requires same_len { length a.now ≡ length b.now }
    requires in_range { bit_count (zip2 bit_and a.now b.now) < 2 ^ 64 }
    ensures { result ≡ bit_count (zip2 bit_and a.now b.now) }
{
    let mut ones = 0;
    for i in 0..a.len() {
        ones += (a[i] & b[i]).count_ones() as usize;
    }
    ones
}

/// The bits of all words in one.
pub(crate) fn fold(words: &[u64]) -> u64
    ensures { AreFolded words.now (length words.now) result }
{
    let mut all = 0;
    for i in 0..words.len() {
        all |= words[i];
    }
    all
}

// The first place from `start` on whose word has each bit of s; the number of words, where there is none.
fn next_containing(words: &[u64], s: u64, start: usize) -> usize
    requires { start ≤ length words.now }
    ensures from { start ≤ result }
    ensures end { result ≤ length words.now }
    ensures found { result < length words.now → IsWithin (slice_index words.now result) s }
    ensures before { (k : ℕ) → start ≤ k → k < result → IsWithin (slice_index words.now k) s → ⊥ }
{
    for k in start..words.len() {
        if words[k] & s == s {
            return k;
        }
    }
    words.len()
}

/// Whether some word other than those at i and j has each bit of s.
pub(crate) fn other_contains(words: &[u64], s: u64, i: usize, j: usize) -> bool
    ensures { IsTrue result
        ↔ ((k : ℕ) × (k < length words.now) × (k ≢ i) × (k ≢ j) × IsWithin (slice_index words.now k) s) }
{
    let mut k = next_containing(words, s, 0);
    while k < words.len() {
        if k != i && k != j {
            return true;
        }
        k = next_containing(words, s, k + 1);
    }
    false
}

/// Whether each of the first `end` words that has each bit of s has each bit of t.
pub(crate) fn implies(words: &[u64], s: u64, t: u64, end: usize) -> bool
    requires { end ≤ length words.now }
    ensures { IsTrue result
        ↔ ((k : ℕ) → k < end → IsWithin (slice_index words.now k) s → IsWithin (slice_index words.now k) t) }
{
    for k in 0..end {
        if words[k] & s == s && words[k] & t != t {
            return false;
        }
    }
    true
}

// How two words compare by their lowest different bit: the word that has it comes first.
fn compare_words(x: u64, y: u64) -> Ordering
    ensures { MatchOrdering result (HasLowestBit x y) (x ≡ y) (HasLowestBit y x) }
{
    if x == y {
        return Ordering::Equal;
    }
    let lowest = (x ^ y).trailing_zeros();
    if (x >> lowest) & 1 == 1 {
        Ordering::Less
    } else {
        Ordering::Greater
    }
}

/// How two rows of words compare by their first different bit, word by word: the row that has it comes first.
pub(crate) fn compare(a: &[u64], b: &[u64]) -> Ordering
    requires { length a.now ≡ length b.now }
    ensures { MatchOrdering result (HasFirstBit a.now b.now) (a.now ≡ b.now) (HasFirstBit b.now a.now) }
{
    for i in 0..a.len() {
        match compare_words(a[i], b[i]) {
            Ordering::Equal => {}
            order => return order,
        }
    }
    Ordering::Equal
}

/// Whether the bit of number i is set.
pub(crate) fn get(words: &[u64], i: usize) -> bool
    requires { i < length words.now * 64 }
    ensures { result ≡ has_bit words.now i }
{
    (words[i / 64] >> (i % 64)) & 1 == 1
}

/// Sets the bit of number i.
pub(crate) fn set(words: &mut [u64], i: usize)
    requires { i < length words.old * 64 }
    ensures set { has_bit words.new i ≡ true }
    ensures others { (k : ℕ) → k ≢ i → has_bit words.new k ≡ has_bit words.old k }
{
    words[i / 64] |= 1 << (i % 64);
}
