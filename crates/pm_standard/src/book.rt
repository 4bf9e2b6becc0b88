// The standard book.

ghost use Rattle.pm_standard.specs.Book.{standard_rule, standard_rules};
ghost use Rattle.std.specs.Prelude.{IfOk, ◌≡◌};

use crate::standard::StandardClient;
use pm_rules::{Book, Rule, Weight};
use std::alloc::{AllocError, Global};

/// The rules of the standard clients, under the labels of their clients.
pub fn standard_book(alloc: Global) -> Result<Book, AllocError>
    ensures { IfOk result (λ b. b ≡ standard_rules) }
{
    let rules = StandardClient::every()
        .iter()
        .map(|client| standard_rule(*client))
        .collect(alloc)?;
    Ok(Book::of_rules(rules))
}

// The rule of a standard client.
fn standard_rule(client: StandardClient) -> Rule
    ensures { result ≡ standard_rule client }
{
    let kind = client.kind();
    Rule {
        label: kind.name,
        kind,
        weight: Weight {
            class: 0,
            minor: client.row().weight,
        },
        must: kind.must,
        must_not: kind.must_not,
    }
}
