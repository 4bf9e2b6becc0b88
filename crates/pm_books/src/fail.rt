// Why a text is no book.

use std::alloc::{AllocError, AllocFailed};
use thiserror::Error;

/// The first fault of a text in byte order, and at one place the first of this list. Each number is a byte's place.
#[derive(Clone, Copy, Debug, PartialEq, Eq, Error)]
pub enum BookFail {
    /// The token cannot stand here, or the text ends too soon.
    #[error("no book has such a token at byte {0}")]
    Syntax(usize),
    /// No property has this name.
    #[error("no property has the name at byte {0}")]
    UnknownProperty(usize),
    /// No kind has this name.
    #[error("no client has the name at byte {0}")]
    UnknownClient(usize),
    /// The rule that ends here does not agree with its kind.
    #[error("the rule that ends at byte {0} does not agree with its client")]
    SignatureMismatch(usize),
    /// A rule before has this label.
    #[error("a rule before has the label at byte {0}")]
    SameLabel(usize),
    /// A part of the weight is above `MOST_WEIGHT`, or both are 0.
    #[error("the weight at byte {0} is out of range")]
    WeightRange(usize),
    /// The label of the rule behind the last that a book may have.
    #[error("the rule at byte {0} is one too many")]
    TooManyRules(usize),
    /// Memory ran out.
    #[error("out of memory")]
    Memory,
}

impl From<AllocError> for BookFail {
    ghost use Rattle.std.specs.Prelude.{◌≡◌};
    ghost use Rattle.pm_books.specs.declared.fail.BookFail.TheVariants.{Memory};

    ghost from_gives = { λ _ e. e ≡ Memory };

    fn from(_failed: AllocError) -> BookFail {
        BookFail::Memory
    }
}

impl<T: Drop> From<AllocFailed<T>> for BookFail {
    ghost use Rattle.std.specs.Prelude.{◌≡◌};
    ghost use Rattle.pm_books.specs.declared.fail.BookFail.TheVariants.{Memory};

    ghost from_gives = { λ _ e. e ≡ Memory };

    fn from(_failed: AllocFailed<T>) -> BookFail {
        BookFail::Memory
    }
}
