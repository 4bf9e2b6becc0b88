//! The lines of a script as they come. It knows nothing of values, objects and sessions.
#![tactic(auto)]

ghost use Rattle.std.specs.Prelude.{List, ℕ};
ghost use Rattle.pm_lines.specs.Examples.{LinesAreWhole, LinesCome};
ghost use Rattle.pm_lines.specs.Laws.{WholeLinesFirst};

mod chunk;
mod reader;

pub use reader::{LineReader, LinesFail};

/// The lines of any script are those that an LF ended, and after them at most one that none did.
pub fn law_whole_lines_first()
    ensures { (bytes : List ℕ) → WholeLinesFirst bytes }
{}

/// Lines as they come, worked by hand: which are whole, what the next call may answer, and what not.
pub fn example_lines()
    ensures whole { LinesAreWhole }
    ensures coming { LinesCome }
{}
