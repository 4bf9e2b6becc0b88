//! Fractions of whole numbers of 128 bits, in lowest terms, with exact arithmetic and order; matrices of them, and the
//! primitive whole rows of their rows. It knows nothing of geometry, properties and objects.
#![tactic(auto)]

mod arithmetic;
pub mod error;
mod fails;
pub mod fraction;
mod matrix;
mod order;
mod primitive;
mod text;
mod whole;

pub use error::NumError;
pub use fails::{MatrixFail, RowFail, RowsFail};
pub use fraction::Fraction;
pub use matrix::Matrix;
pub use primitive::primitive_row;
