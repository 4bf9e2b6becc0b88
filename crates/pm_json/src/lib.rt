//! Values of properties from JSON, and the first fault of a text that is none. It knows nothing of objects, rules and
//! where texts are kept.
#![tactic(auto)]

ghost use Rattle.pm_json.specs.Examples.{MatricesHaveTexts, NumbersHaveTexts, SetsHaveTexts};
ghost use Rattle.pm_json.specs.Laws.{TextsAreRead};

mod counts;
mod edges;
mod fail;
mod lattice;
mod matrix;
mod number;
mod sets;
mod text;
mod value;

pub use fail::ValueFail;
pub use text::{TextFail, read_text};
pub use value::read_value;

/// A JSON value that is a value of a property is read as that value, so it is no other one.
pub fn law_texts_are_read()
    ensures { TextsAreRead }
{}

/// Which texts matrices and objectives have, and which not.
pub fn example_matrices()
    ensures { MatricesHaveTexts }
{}

/// Which texts sets and edges have, and which not.
pub fn example_sets()
    ensures { SetsHaveTexts }
{}

/// Which texts numbers, truth values and counts have, and which not.
pub fn example_numbers()
    ensures { NumbersHaveTexts }
{}
