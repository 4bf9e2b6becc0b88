// Which names are needed to find the asked ones, and which rules are useful for that.

ghost use Rattle.std.specs.Prelude.{◌≡◌, ◌≤◌, ◌↔◌, IsTrue, Some, false, length};
ghost use Rattle.pm_props.specs.declared.property.PropId.{PropId};
ghost use Rattle.pm_props.specs.Sets.{has, IsSubset};
ghost use Rattle.pm_rules.specs.Rules.{rule_at, inputs};
ghost use Rattle.pm_rules.specs.Chains.{Needed};
ghost use Rattle.pm_rules.specs.Useful.{FindsOne, AllNeeded};
ghost use Rattle.pm_limits.specs.Limits.{most_rules};

use crate::rule::Rule;
use pm_props::{PropSet, RuleId};

/// The names that are needed to find the asked ones by the rules: these names, and all that useful rules read.
pub fn needed(rules: &[Rule], names: PropSet, barred: &[RuleId], asked: PropSet) -> PropSet
    requires { length rules.now ≤ most_rules }
    ensures { (p : PropId) → IsTrue (has result p) ↔ Needed rules.now names barred.now asked p }
{
    let mut needed = asked;
    'grow: loop {
        let more = with_read(rules, names, barred, needed);
        if more.bits() == needed.bits() {
            return needed;
        }
        needed = more;
    }
}

impl Rule {
    /// Whether the rule of this number is in use, not barred, and finds one of these names. Of the needed names this
    /// says whether the rule is useful.
    pub fn finds_one(&self, names: PropSet, barred: &[RuleId], of: PropSet, id: RuleId) -> bool
        ensures { IsTrue result ↔ FindsOne names barred.now of id self.now }
    {
        !self.kind.targets.intersection(of).is_empty() && self.may_be_used(names, barred, id)
    }

    // Whether the rule of this number finds one of these names, and reads what is not in the set yet.
    fn reads_more(
        &self,
        names: PropSet,
        barred: &[RuleId],
        of: PropSet,
        set: PropSet,
        id: RuleId,
    ) -> bool
        ensures finds { IsTrue result → FindsOne names barred.now of id self.now }
        ensures read { result ≡ false → FindsOne names barred.now of id self.now
            → IsSubset (inputs self.now) set }
    {
        !self.inputs().is_subset(set) && self.finds_one(names, barred, of, id)
    }
}

// The set with all that the rules read which find one of it.
fn with_read(rules: &[Rule], names: PropSet, barred: &[RuleId], set: PropSet) -> PropSet
    requires { length rules.now ≤ most_rules }
    ensures number { set ≤ result }
    ensures grows { IsSubset set result }
    ensures sound { (asked : PropSet) → AllNeeded rules.now names barred.now asked set
        → AllNeeded rules.now names barred.now asked result }
    ensures closed { (id : RuleId) (rule : Rule) → rule_at rules.now id ≡ Some rule
        → FindsOne names barred.now set id rule → IsSubset (inputs rule) result }
{
    let mut more = set;
    for (i, rule) in rules.iter().enumerate() {
        if rule.reads_more(names, barred, set, more, RuleId(i as u16)) {
            more = more.union(rule.inputs());
        }
    }
    more
}
