// Books of rules.

ghost use Rattle.std.specs.Prelude.{◌≡◌, ◌==◌, length};
ghost use Rattle.std.specs.Option.{option_copied};
ghost use Rattle.pm_rules.specs.Rules.{rule_at};
ghost use Rattle.pm_rules.specs.Books.{IsBook};

use crate::rule::Rule;
use pm_props::RuleId;
use std::marker::Model;

/// A list of at most 256 rules with different labels. Contracts see it as that list.
#[derive(Drop)]
pub struct Book {
    rules: Vec<Rule>,
}

impl Model for Book {
    ghost use Rattle.std.specs.Prelude.{List};
    ghost use Rattle.pm_rules.specs.declared.rule.Rule.{Rule};

    ghost Value = { List Rule };

    ghost use Rattle.pm_rules.specs.Books.{IsBook};

    ghost view = { λ b. b.rules.items };

    ghost invariant = { λ b. IsBook b.rules.items };
}

impl Book {
    /// The book of these rules. Takes no memory.
    pub fn of_rules(rules: Vec<Rule>) -> Book
        requires { IsBook rules.items }
        ensures { result ≡ rules.items }
    {
        Book { rules }
    }

    /// The rules, in order.
    pub fn rules(&self) -> &[Rule]
        ensures value { result.now ≡ self.now }
        ensures book { IsBook result.now }
    {
        self.rules.as_slice()
    }

    /// How many rules the book has.
    pub fn len(&self) -> usize
        ensures { result ≡ length self.now }
    {
        self.rules.len()
    }

    /// Whether the book has no rule.
    pub fn is_empty(&self) -> bool
        ensures { result ≡ (length self.now == 0) }
    {
        self.rules.is_empty()
    }

    /// The rule of this number, if the book has so many.
    pub fn rule(&self, id: RuleId) -> Option<&Rule>
        ensures { option_copied result ≡ rule_at self.now id }
    {
        self.rules.get(usize::from(id.0))
    }
}
