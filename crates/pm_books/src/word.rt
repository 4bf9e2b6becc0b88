// Which texts are numbers, and what a number is worth.

ghost use Rattle.std.specs.Prelude.{◌≡◌, ◌≤◌, Some, None, if◌then◌else◌, min};
ghost use Rattle.pm_books.specs.Reading.{is_number, number_on, weight_of, is_weight};

use crate::lex::digits;
use pm_rules::is_digit;
use pm_weights::Weight;

/// Whether the token is a number.
pub fn is_number(text: &[u8]) -> bool
    ensures { result ≡ is_number text.now }
{
    match text.split_first() {
        None => false,
        Some((first, _)) => is_digit(*first),
    }
}

/// The weight that a number spells, if a rule may have it.
pub fn weight(text: &[u8]) -> Option<Weight>
    ensures { result ≡ (if is_weight (weight_of text.now) then Some (weight_of text.now) else None) }
{
    let weight = capped_weight(text);
    if weight.is_weight() {
        Some(weight)
    } else {
        None
    }
}

// The weight that a number spells, each part at most 1,000,001.
fn capped_weight(text: &[u8]) -> Weight
    ensures class { result.class ≡ min (weight_of text.now).class 1000001 }
    ensures minor { result.minor ≡ min (weight_of text.now).minor 1000001 }
{
    let whole = digits(text);
    if whole == text.len() {
        Weight {
            class: 0,
            minor: capped_number(text),
        }
    } else {
        Weight {
            class: capped_number(&text[..whole]),
            minor: capped_number(&text[whole + 1..]),
        }
    }
}

// The number that digits spell, or 1,000,001 where it is greater.
fn capped_number(text: &[u8]) -> u32
    ensures value { result ≡ min (number_on 0 text.now) 1000001 }
    ensures below { result ≤ 1000001 }
{
    let mut number: u32 = 0;
    for b in text {
        number = (10 * number + u32::from(b.saturating_sub(b'0'))).min(1_000_001);
    }
    number
}
