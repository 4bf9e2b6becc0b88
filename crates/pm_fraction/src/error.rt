//! Why a call gives no fraction.

use thiserror::Error;

/// Why a call gives no fraction.
#[derive(Clone, Copy, Debug, PartialEq, Eq, Error)]
pub enum NumError {
    /// A fraction was asked for whose denominator is 0.
    #[error("the denominator is zero")]
    ZeroDenominator,
    /// A number leaves the range from -(2^127 - 1) to 2^127 - 1.
    #[error("a number is too wide")]
    Wide,
    /// A quotient was asked for whose divisor is 0.
    #[error("the divisor is zero")]
    DivideByZero,
    /// A text is not a number.
    #[error("not a number")]
    NotANumber,
}
