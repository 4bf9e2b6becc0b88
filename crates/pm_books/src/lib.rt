//! The text grammar of rule books: reading a book, and printing one. It knows nothing of values, objects and
//! geometry.
#![tactic(auto)]

mod fail;
mod lex;
mod parts;
mod read;
mod token;
mod word;
mod write;

pub use fail::BookFail;
pub use read::read_book;
pub use write::book_text;
