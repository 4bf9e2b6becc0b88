//! Fractions as texts.

ghost use Rattle.std.specs.Prelude.{◌≡◌, ◌<◌, ◌≤◌, ◌^◌, ◌↔◌, IfOk, IfErr, OnOk, IsTrue, Some, string_bytes};
ghost use Rattle.std.specs.Char.{is_ascii_digit};
ghost use Rattle.std.specs.List.{list_all};
ghost use Rattle.std.specs.Str.Parse.{IsNumeral, digits_value, starts_with_minus};
ghost use Rattle.pm_fraction.specs.Text.{CannotBeRead, IsReadAnswer, IsReadAs, before_slash, behind_slash, text_of, without_minus};

use crate::error::NumError;
use crate::fraction::Fraction;
use std::alloc::{AllocError, Global};
use std::fmt;

// Whether there is a leading `-`, and the text without it.
fn split_sign(text: &str) -> (bool, &str)
    ensures sign { result.0 ≡ starts_with_minus text.now }
    ensures rest { result.1.now ≡ without_minus text.now }
{
    match text.strip_prefix('-') {
        Some(rest) => (true, rest),
        None => (false, text),
    }
}

// What stands before the first `/` and behind it; all and `1` where there is none.
fn split_slash(text: &str) -> (&str, &str)
    ensures before { result.0.now ≡ before_slash text.now }
    ensures behind { result.1.now ≡ behind_slash text.now }
{
    match text.split_once('/') {
        Some((before, behind)) => (before, behind),
        None => (text, "1"),
    }
}

// Whether the text is digits, and not empty.
fn is_numeral(text: &str) -> bool
    ensures { IsTrue result ↔ IsNumeral 10 text.now }
{
    !text.is_empty() && are_digits(text.as_bytes())
}

fn are_digits(bytes: &[u8]) -> bool
    ensures { result ≡ list_all is_ascii_digit bytes.now }
{
    bytes.iter().all(|b| b.is_ascii_digit())
}

// The number that the digits write.
fn literal(digits: &str) -> Result<u128, NumError>
    requires { IsNumeral 10 digits.now }
    ensures ok { IfOk result (λ n. n ≡ digits_value 10 digits.now) }
    ensures fits { OnOk result (digits_value 10 digits.now < 2 ^ 127) }
    ensures wide { IfErr result (λ e. (e ≡ NumError.Wide) × (2 ^ 127 ≤ digits_value 10 digits.now)) }
{
    match digits.parse::<u128>() {
        Ok(n) if n <= i128::MAX as u128 => Ok(n),
        _ => Err(NumError::Wide),
    }
}

impl fmt::Display for Fraction {
    ghost output = { λ p. Some (text_of p) };

    fn fmt<W: fmt::Write>(&self, f: &mut fmt::Formatter<W>) -> fmt::Result {
        let num = self.num();
        let den = self.den();
        if den == 1 {
            write!(f, "{num}")
        } else {
            write!(f, "{num}/{den}")
        }
    }
}

impl Fraction {
    ghost use Rattle.pm_vector.specs.Numbers.{Ratio};
    ghost use Rattle.pm_fraction.specs.declared.error.NumError.{NumError};
    ghost use Rattle.std.specs.Prelude.{Result, Ok};

    /// Reads an optional `-`, digits, and optionally `/` and digits; zeros may lead. `NotANumber` exactly for another
    /// text, else `Wide` exactly where digits write a number above 2^127 - 1, else `ZeroDenominator` exactly where
    /// those behind `/` write 0.
    pub fn read(text: &str) -> Result<Fraction, NumError>
        ensures ok { IfOk result (λ r. IsReadAs text.now r) }
        ensures err { IfErr result (λ e. CannotBeRead text.now e) }
    {
        let (is_negative, unsigned) = split_sign(text);
        let (top, bottom) = split_slash(unsigned);
        if !is_numeral(top) || !is_numeral(bottom) {
            return Err(NumError::NotANumber);
        }
        let top = literal(top)?;
        let bottom = literal(bottom)?;
        if bottom == 0 {
            return Err(NumError::ZeroDenominator);
        }
        Fraction::of_sizes(is_negative, top, bottom)
    }

    /// `p` where q is 1, else `p/q`, in decimal digits without leading zeros.
    pub fn text(self, alloc: Global) -> Result<String, AllocError>
        ensures text { IfOk result (λ s. string_bytes s ≡ text_of self) }

        // `Fraction::read` gives this fraction back.
        ensures reads_back { IfOk result (λ s. (answer : Result Ratio NumError)
            → IsReadAnswer (string_bytes s) answer → answer ≡ Ok self) }
    {
        let num = self.num();
        let den = self.den();
        if den == 1 {
            format!(in alloc; "{num}")
        } else {
            format!(in alloc; "{num}/{den}")
        }
    }
}
