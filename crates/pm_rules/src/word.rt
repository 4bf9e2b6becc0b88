// Which texts are words and labels of a book.

ghost use Rattle.std.specs.Prelude.{◌≡◌, ◌==◌, not};
ghost use Rattle.std.specs.List.{list_all};
ghost use Rattle.std.specs.Str.{bytes_eq};
ghost use Rattle.pm_rules.specs.Words.{is_letter, is_digit, is_word_byte, is_word, is_label, precondition_word};

/// The longest label.
pub const LONGEST_LABEL: usize = 32;

/// Whether the byte is a letter or `_`.
pub fn is_letter(b: u8) -> bool
    ensures { result ≡ is_letter b }
{
    (b'A' <= b && b <= b'Z') || (b'a' <= b && b <= b'z') || b == b'_'
}

/// Whether the byte is a digit.
pub fn is_digit(b: u8) -> bool
    ensures { result ≡ is_digit b }
{
    b'0' <= b && b <= b'9'
}

/// Whether the byte may stand in a word.
pub fn is_word_byte(b: u8) -> bool
    ensures { result ≡ is_word_byte b }
{
    is_letter(b) || is_digit(b) || b == b'.'
}

/// Whether the bytes are a letter or `_`, and then letters, digits, `_` or `.`.
pub fn is_word(text: &[u8]) -> bool
    ensures { result ≡ is_word text.now }
{
    match text.split_first() {
        None => false,
        Some((first, rest)) => is_letter(*first) && are_word_bytes(rest),
    }
}

// Whether all these bytes may stand in a word.
fn are_word_bytes(bytes: &[u8]) -> bool
    ensures { result ≡ list_all is_word_byte bytes.now }
{
    bytes.iter().all(|b| is_word_byte(*b))
}

// Whether there is no point among the bytes.
fn has_no_point(bytes: &[u8]) -> bool
    ensures { result ≡ list_all (λ b. not (b == 46)) bytes.now }
{
    bytes.iter().all(|b| *b != b'.')
}

// Whether the word begins the preconditions of a rule.
fn is_precondition(text: &[u8]) -> bool
    ensures { result ≡ bytes_eq text.now precondition_word }
{
    text == "precondition".as_bytes()
}

/// Whether the bytes are a word of at most 32 bytes without `.` that is not `precondition`.
pub fn is_label(text: &[u8]) -> bool
    ensures { result ≡ is_label text.now }
{
    is_word(text) && text.len() <= LONGEST_LABEL && has_no_point(text) && !is_precondition(text)
}
