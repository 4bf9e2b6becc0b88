// The tokens of a text.

ghost use Rattle.std.specs.Prelude.{◌≡◌, ◌-◌, ◌<◌, ◌≤◌, IfOk, false, length, map};
ghost use Rattle.std.specs.List.{prefix_len};
ghost use Rattle.pm_rules.specs.Words.{is_digit, is_word_byte};
ghost use Rattle.pm_books.specs.Tokens.{is_space, after_gap, number_len, token_len, tokens_of};
ghost use Rattle.pm_books.specs.Seen.{seen};

use crate::token::Token;
use pm_rules::{is_digit, is_letter, is_word_byte};
use std::alloc::{AllocError, Global};

/// The tokens of a text, in order.
pub fn tokens<'a>(alloc: Global, text: &'a [u8]) -> Result<Vec<Token<'a>>, AllocError>
    ensures { IfOk result (λ v. map seen v.items ≡ tokens_of text.entry.now) }
{
    let mut tokens = Vec::new(alloc);
    let mut rest = text;
    'tokens: loop {
        let begun = after_gap(rest);
        if begun.is_empty() {
            return Ok(tokens);
        }
        let (token, after) = begun.split_at(token_len(begun));
        tokens.push(Token {
            place: text.len() - begun.len(),
            text: token,
        })?;
        rest = after;
    }
}

// What comes after white space and comments.
fn after_gap(bytes: &[u8]) -> &[u8]
    ensures rest { result.now ≡ after_gap false bytes.now }
    ensures shorter { length result.now ≤ length bytes.now }
{
    let mut rest = bytes;
    let mut inside = false;
    while let Some((first, after)) = rest.split_first() {
        if inside {
            inside = *first != b'\n';
        } else if *first == b'#' {
            inside = true;
        } else if !is_space(*first) {
            return rest;
        }
        rest = after;
    }
    rest
}

// How long a token these bytes begin with.
fn token_len(bytes: &[u8]) -> usize
    requires { 0 < length bytes.now }
    ensures value { result ≡ token_len bytes.now }
    ensures some { 0 < result }
    ensures within { result ≤ length bytes.now }
{
    if is_letter(bytes[0]) {
        1 + word_bytes(&bytes[1..])
    } else if is_digit(bytes[0]) {
        number_len(bytes)
    } else {
        1
    }
}

// How long a number these bytes begin with.
fn number_len(bytes: &[u8]) -> usize
    ensures value { result ≡ number_len bytes.now }
    ensures within { result ≤ length bytes.now }
{
    let whole = digits(bytes);
    if whole < bytes.len() && bytes[whole] == b'.' {
        let more = digits(&bytes[whole + 1..]);
        if more > 0 {
            return whole + 1 + more;
        }
    }
    whole
}

/// How many digits the bytes begin with.
pub fn digits(bytes: &[u8]) -> usize
    ensures value { result ≡ prefix_len is_digit bytes.now }
    ensures within { result ≤ length bytes.now }
{
    bytes.iter().take_while(|b| is_digit(**b)).count()
}

// How many bytes of words the bytes begin with.
fn word_bytes(bytes: &[u8]) -> usize
    ensures value { result ≡ prefix_len is_word_byte bytes.now }
    ensures within { result ≤ length bytes.now }
{
    bytes.iter().take_while(|b| is_word_byte(**b)).count()
}

// Whether the byte is white space.
fn is_space(b: u8) -> bool
    ensures { result ≡ is_space b }
{
    b == b' ' || b == b'\t' || b == b'\r' || b == b'\n'
}
