// The words of a line.

ghost use Rattle.pm_rules.specs.Words.{is_label, is_word};
ghost use Rattle.pm_command.specs.Words.{is_dot, first_word, rest, is_name_byte, is_name, is_number_word, is_property_byte, is_property_word, is_type_word};
ghost use Rattle.std.specs.Char.{is_ascii_alphabetic, is_ascii_digit};
ghost use Rattle.std.specs.List.{list_all, before_first, after_first};
ghost use Rattle.std.specs.Prelude.{◌≡◌};

const WORD_LIMIT: usize = 32;

const NUMBER_LIMIT: usize = 4;

/// The word before the first space, and what stands after it.
pub fn split_word(text: &str) -> (&str, &str)
    ensures word { result.0.now ≡ first_word text.now }
    ensures rest { result.1.now ≡ rest text.now }
{
    match text.split_once(' ') {
        Some((word, others)) => (word, others),
        None => (text, ""),
    }
}

/// What stands before the first dot, or all, and what stands after it.
pub fn split_dot(word: &str) -> (&str, &str)
    ensures name { result.0.now ≡ before_first is_dot word.now }
    ensures sub { result.1.now ≡ after_first is_dot word.now }
{
    match word.split_once('.') {
        Some((name, sub)) => (name, sub),
        None => (word, ""),
    }
}

/// Whether each byte is a letter, a digit or `_`.
fn are_name_bytes(word: &[u8]) -> bool
    ensures { result ≡ list_all is_name_byte word.now }
{
    word.iter().all(|b| b.is_ascii_alphanumeric() || *b == b'_')
}

/// Whether a word is a letter, then letters, digits or `_`, at most 32 bytes.
pub fn is_name(word: &str) -> bool
    ensures { result ≡ is_name word.now }
{
    let Some((first, others)) = word.as_bytes().split_first() else {
        return false;
    };
    first.is_ascii_alphabetic() && are_name_bytes(others) && word.len() <= WORD_LIMIT
}

/// Whether each byte is a capital letter, a digit or `_`.
fn are_property_bytes(word: &[u8]) -> bool
    ensures { result ≡ list_all is_property_byte word.now }
{
    word.iter().all(|b| b.is_ascii_uppercase() || b.is_ascii_digit() || *b == b'_')
}

/// Whether a word is capital letters, digits or `_`, from 1 to 32 bytes.
pub fn is_property_word(word: &str) -> bool
    ensures { result ≡ is_property_word word.now }
{
    1 <= word.len() && word.len() <= WORD_LIMIT && are_property_bytes(word.as_bytes())
}

/// Whether each byte is a letter.
fn are_letters(word: &[u8]) -> bool
    ensures { result ≡ list_all is_ascii_alphabetic word.now }
{
    word.iter().all(|b| b.is_ascii_alphabetic())
}

/// Whether a word is letters, one at least.
pub fn is_type_word(word: &str) -> bool
    ensures { result ≡ is_type_word word.now }
{
    1 <= word.len() && are_letters(word.as_bytes())
}

/// Whether a word may be a client's in a book.
pub fn is_client_word(word: &str) -> bool
    ensures { result ≡ is_word word.now }
{
    pm_rules::is_word(word.as_bytes())
}

/// Whether a word may be a rule's label in a book.
pub fn is_label(word: &str) -> bool
    ensures { result ≡ is_label word.now }
{
    pm_rules::is_label(word.as_bytes())
}

/// Whether each byte is a digit.
fn are_digits(word: &[u8]) -> bool
    ensures { result ≡ list_all is_ascii_digit word.now }
{
    word.iter().all(|b| b.is_ascii_digit())
}

/// Whether a word is decimal digits, at most four, of which the first is not 0.
pub fn is_number_word(word: &str) -> bool
    ensures { result ≡ is_number_word word.now }
{
    let Some(first) = word.as_bytes().first() else {
        return false;
    };
    *first != b'0' && are_digits(word.as_bytes()) && word.len() <= NUMBER_LIMIT
}
