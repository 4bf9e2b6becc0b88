// Numbers, costs and sets as they may be spelled. Each is right where the text is printed of one.

ghost use Rattle.std.specs.Prelude.{◌≡◌, ◌<◌, ◌^◌, ℕ, IfSome, Some, decimal, filter};
ghost use Rattle.pm_weights.specs.declared.Cost.{Cost};
ghost use Rattle.pm_weights.specs.Weights.{cost_text};
ghost use Rattle.pm_props.specs.Properties.{count, every_property};
ghost use Rattle.pm_props.specs.Sets.{has, set_of};
ghost use Rattle.pm_printed.specs.Printed.{IsCost};
ghost use Rattle.pm_printed.specs.Texts.{set_text};

use pm_props::{PropId, PropSet};
use pm_rules::Cost;

// The number that decimal digits spell.
fn number_of(text: &str) -> Option<u64>
    ensures { (n : ℕ) → n < 2 ^ 64 → text.now ≡ decimal n → result ≡ Some n }
{
    text.parse::<u64>().ok()
}

// The cost of these parts.
fn cost_from(class: Option<u64>, minor: Option<u64>) -> Option<Cost>
    ensures back { (c : Cost) → class ≡ Some c.class → minor ≡ Some c.minor → result ≡ Some c }
    ensures fits { IfSome result IsCost }
{
    match (class, minor) {
        (Some(class), Some(minor)) => Some(Cost { class, minor }),
        _ => None,
    }
}

/// The cost that a text spells.
pub(crate) fn cost_of(text: &str) -> Option<Cost>
    ensures back { (c : Cost) → IsCost c → text.now ≡ cost_text c → result ≡ Some c }
    ensures fits { IfSome result IsCost }
{
    match text.split_once('.') {
        None => cost_from(Some(0), number_of(text)),
        Some((class, minor)) => cost_from(number_of(class), number_of(minor)),
    }
}

// The number that hexadecimal digits spell.
fn bits_of(text: &str) -> Option<u64>
    ensures { (s : ℕ) → s < 2 ^ 64 → text.now ≡ set_text s → result ≡ Some s }
{
    u64::from_str_radix(text, 16).ok()
}

// Whether the bit of the property is set.
fn has_bit(bits: u64, p: PropId) -> bool
    ensures { result ≡ has bits p }
{
    (u128::from(bits) >> p.number()) & 1 == 1
}

// Those of the properties whose bits are set.
fn set_among(bits: u64, list: &[PropId]) -> PropSet
    ensures { result ≡ set_of (filter (has bits) list.now) }
{
    let mut set = PropSet::empty();
    for p in list {
        if has_bit(bits, *p) {
            set = set.with(*p);
        }
    }
    set
}

// The properties whose bits are set.
fn set_of_bits(bits: u64) -> PropSet
    ensures { bits < 2 ^ count → result ≡ bits }
{
    set_among(bits, &PropId::every())
}

/// The set that hexadecimal digits spell.
pub(crate) fn set_of(text: &str) -> Option<PropSet>
    ensures back { (s : ℕ) → s < 2 ^ count → text.now ≡ set_text s → result ≡ Some s }
    ensures fits { IfSome result (λ s. s < 2 ^ count) }
{
    match bits_of(text) {
        Some(bits) => Some(set_of_bits(bits)),
        None => None,
    }
}
