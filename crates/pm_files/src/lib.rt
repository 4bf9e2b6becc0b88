//! Data files: the JSON of the values of properties, and the files that are written. It knows nothing of objects that
//! hold values, of rules and of where files are kept.
#![tactic(auto)]

ghost use Rattle.pm_files.specs.Examples.{MatricesAreWritten, NumbersAreWritten, SetsAreWritten};
ghost use Rattle.pm_files.specs.EvidenceExamples.{EvidenceIsWritten};
ghost use Rattle.pm_files.specs.FileExamples.{FilesAreWritten};
ghost use Rattle.pm_files.specs.Laws.{FilesAreShallow, FilesHaveNoFloat, FilesHoldTheirType, FilesHoldTheirValues, ValuesAreShallow, ValuesHaveNoFloat};

mod evidence;
mod file;
mod text;
mod value;
mod write;

pub use evidence::evidence_text;
pub use file::{FileObject, FileProgram};
pub use text::value_text;
pub use value::value_json;
pub use write::{object_bytes, type_text};

/// The JSON of a value nests three levels at most.
pub fn law_values_are_shallow()
    ensures { ValuesAreShallow }
{}

/// The JSON of a value has no float.
pub fn law_values_have_no_float()
    ensures { ValuesHaveNoFloat }
{}

/// How matrices and objectives are written, and how not.
pub fn example_matrices()
    ensures { MatricesAreWritten }
{}

/// How sets, edges and lattices are written, and how not.
pub fn example_sets()
    ensures { SetsAreWritten }
{}

/// How numbers and truth values are written, and how not.
pub fn example_numbers()
    ensures { NumbersAreWritten }
{}

/// How evidence is written, and how not.
pub fn example_evidence()
    ensures { EvidenceIsWritten }
{}

/// A file nests six levels at most.
pub fn law_files_are_shallow()
    ensures { FilesAreShallow }
{}

/// A file has no float.
pub fn law_files_have_no_float()
    ensures { FilesHaveNoFloat }
{}

/// A value stands in its file under its name, where no later value has that name.
pub fn law_files_hold_their_values()
    ensures { FilesHoldTheirValues }
{}

/// A file has the text of its type.
pub fn law_files_hold_their_type()
    ensures { FilesHoldTheirType }
{}

/// How files, marks and programs are written, and how not.
pub fn example_files()
    ensures { FilesAreWritten }
{}
