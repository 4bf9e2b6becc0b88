// Rules by their labels.

ghost use Rattle.std.specs.Prelude.{◌≡◌, ◌≤◌, ◌<◌, IfSome, length, position};
ghost use Rattle.std.specs.Str.{bytes_eq};
ghost use Rattle.pm_limits.specs.Limits.{most_rules};
ghost use Rattle.pm_printed.specs.Labels.{labelled};

use pm_rules::{Rule, RuleId};

// The place of the first rule of this label.
fn place_of(rules: &[Rule], label: &str) -> Option<usize>
    ensures place { result ≡ position (λ rule. bytes_eq rule.label label.now) rules.now }
    ensures within { IfSome result (λ i. i < length rules.now) }
{
    rules
        .iter()
        .position(|rule| rule.label.as_bytes() == label.as_bytes())
}

/// The first rule of this label, if the book has one.
pub fn rule_labelled(rules: &[Rule], label: &str) -> Option<RuleId>
    requires { length rules.now ≤ most_rules }
    ensures { result ≡ labelled rules.now label.now }
{
    match place_of(rules, label) {
        Some(number) => Some(RuleId(number as u16)),
        None => None,
    }
}
