//! The rules that are shipped and their clients, a row of one table each, and the book of the standard ones. What a
//! client does stands in the crates of clients: here are its label, what it finds from what, under which conditions,
//! and what its rule weighs. It knows nothing of values, objects and geometry.
#![tactic(auto)]

ghost use Rattle.pm_rules.specs.Books.{FirstKinds};
ghost use Rattle.pm_standard.specs.Book.{standard_rules};
ghost use Rattle.pm_standard.specs.Table.{standard_kinds_list};

mod book;
mod standard;

pub use book::standard_book;
pub use standard::{StandardClient, StandardRule, standard_kinds};

/// The kind of each standard rule is the first of its name among the standard kinds, so what is printed of the
/// standard book is read back with these.
pub fn law_standard_kinds_are_first()
    ensures { FirstKinds standard_kinds_list standard_rules }
{}
