//! Sets of numbers below a length, kept as rows of bits, and lists of such rows. It knows nothing of rows of numbers,
//! of faces and of objects.
//!
//! A clause sees a `BitRow` as the list of its bits: the bit at i says whether the number i is a member
//! (`has`), and the list's length is the row's. The words and lanes below that are seen nowhere else.
#![tactic(auto)]

ghost use Rattle.pm_bits.specs.Examples.{ImplicationsAreRead, MembersAreRead, UnionsAreRead};

mod order;
mod row;
mod table;
mod words;

pub use row::BitRow;
pub use table::BitTable;

/// The members of small rows as lists.
pub fn example_members()
    ensures { MembersAreRead }
{}

/// The union and the intersection of small rows.
pub fn example_unions()
    ensures { UnionsAreRead }
{}

/// Which members imply others in three small rows.
pub fn example_implications()
    ensures { ImplicationsAreRead }
{}
