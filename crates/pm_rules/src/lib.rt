//! Rules and books of them, chains, plans' tables and their certificates: what they mean. How books are written as
//! texts stands in the crate above. It knows nothing of values, objects and geometry.
#![tactic(auto)]

mod book;
mod laws;
mod rule;
mod step;
mod table;
mod useful;
mod word;

pub use book::Book;
pub use laws::{law_certificate_bounds, law_certificate_excludes, law_useful_part};
pub use pm_props::{ClientName, Kind, PropId, PropSet, RuleId};
pub use pm_weights::{Cost, Weight};
pub use rule::Rule;
pub use step::{Step, Tag, has_programs, is_barred};
pub use table::{Claim, Table, TableRow};
pub use useful::needed;
pub use word::{is_digit, is_label, is_letter, is_word, is_word_byte};
