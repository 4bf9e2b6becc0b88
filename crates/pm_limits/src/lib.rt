//! The limits of the program, each once. What is larger is refused, and never answered in part. No code runs here. It
//! knows nothing of what it limits.
#![tactic(auto)]

/// The rows of a matrix, the rays and the facets of a cone, the sets of a list, the nodes of a graph, the numbers of
/// a list.
pub const MOST_ROWS: usize = 2048;

/// The dimensions of a space.
pub const MOST_DIMENSIONS: usize = 32;

/// The columns of a matrix: a coordinate more than there are dimensions.
pub const MOST_COLUMNS: usize = MOST_DIMENSIONS + 1;

/// The columns of sites: a lifted site has one more.
pub const MOST_SITE_COLUMNS: usize = MOST_DIMENSIONS;

/// The faces of a lattice.
pub const MOST_FACES: usize = 65_536;

/// The indices of all faces of a lattice together.
pub const MOST_PLACES: usize = 4_000_000;

/// The bytes of a file.
pub const MOST_FILE_BYTES: usize = 8_388_608;

/// The bytes of a line of a script.
pub const MOST_LINE_BYTES: usize = 1_048_576;

/// The bytes of a script.
pub const MOST_SCRIPT_BYTES: usize = 16_777_216;

/// The objects of a session.
pub const MOST_OBJECTS: usize = 32;

/// The linear programs of an object.
pub const MOST_PROGRAMS: usize = 4;

/// The properties that a command asks for.
pub const MOST_ASKED: usize = 4;

/// The rules of a book.
pub const MOST_RULES: usize = 256;

/// The class and the minor of a rule's weight.
pub const MOST_WEIGHT: u32 = 1_000_000;

/// The sets of names that a table of costs has.
pub const MOST_TABLE_ROWS: usize = 65_536;

/// The bytes of a printed plan that is checked.
pub const MOST_PRINTED_BYTES: usize = 16_777_216;
