// Chains that are read: what they weigh, what they reach, and how far they can be followed.

ghost use Rattle.std.specs.Prelude.{◌≡◌, ◌≤◌, ◌<◌, ◌↔◌, ◌+◌, ◌^◌, Some, IsTrue, List, [], ◌∷◌, length, take};
ghost use Rattle.pm_rules.specs.Chains.{IsChain, reached, targets_at, weigh, weight_at};

use pm_props::PropSet;
use pm_rules::{Cost, Rule, RuleId, Weight};

// What the rule of this number weighs; nothing where there is none.
fn weight_at(rules: &[Rule], id: RuleId) -> Weight
    ensures { result ≡ weight_at rules.now id }
{
    match rules.get(usize::from(id.0)) {
        Some(rule) => rule.weight,
        None => Weight { class: 0, minor: 0 },
    }
}

// What the rule of this number finds; nothing where there is none.
fn targets_at(rules: &[Rule], id: RuleId) -> PropSet
    ensures { result ≡ targets_at rules.now id }
{
    match rules.get(usize::from(id.0)) {
        Some(rule) => rule.kind.targets,
        None => PropSet::empty(),
    }
}

/// Whether the rules of the chain together weigh so much.
pub(crate) fn has_weight(rules: &[Rule], chain: &[RuleId], weight: Cost) -> bool
    ensures { IsTrue result ↔ weigh rules.now chain.now ≡ weight }
{
    let mut class: u128 = 0;
    let mut minor: u128 = 0;
    for id in chain {
        let part = weight_at(rules, *id);
        class += u128::from(part.class);
        minor += u128::from(part.minor);
    }
    class == u128::from(weight.class) && minor == u128::from(weight.minor)
}

/// The names held after the chain.
pub(crate) fn reached(rules: &[Rule], held: PropSet, chain: &[RuleId]) -> PropSet
    ensures { result ≡ reached rules.now held chain.now }
{
    let mut set = held;
    for id in chain {
        set = set.union(targets_at(rules, *id));
    }
    set
}

// Whether the rule of this number may be applied to the names held.
fn is_enabled_at(
    rules: &[Rule],
    names: PropSet,
    barred: &[RuleId],
    held: PropSet,
    id: RuleId,
) -> bool
    ensures { IsTrue result ↔ IsChain rules.now names barred.now held (id ∷ []) }
{
    match rules.get(usize::from(id.0)) {
        Some(rule) => rule.is_enabled(names, barred, held, id),
        None => false,
    }
}

/// How many rules of the chain are enabled in turn.
pub(crate) fn followed(
    rules: &[Rule],
    names: PropSet,
    barred: &[RuleId],
    held: PropSet,
    chain: &[RuleId],
) -> usize
    ensures within { result ≤ length chain.now }
    ensures before { IsChain rules.now names barred.now held (take result chain.now) }
    ensures next { result < length chain.now
        → IsChain rules.now names barred.now held (take (result + 1) chain.now) → ⊥ }
{
    let mut set = held;
    for (k, id) in chain.iter().enumerate() {
        if !is_enabled_at(rules, names, barred, set, *id) {
            return k;
        }
        set = set.union(targets_at(rules, *id));
    }
    chain.len()
}
