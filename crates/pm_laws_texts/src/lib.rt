//! Laws of the texts that are read and written, a module each: the fault that is answered for a book or a value is its
//! first, files are saved as the same bytes again after they were loaded, and what explain prints is read by the checker of
//! printed plans and found to prove itself. It has no code, and nothing stands on it.
#![tactic(auto)]

pub mod books;
pub mod faults;
pub mod files;
pub mod printed;
