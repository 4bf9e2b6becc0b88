// The words that name files.

ghost use Rattle.std.specs.Prelude.{◌≡◌};
ghost use Rattle.std.specs.List.{list_all};
ghost use Rattle.pm_store.specs.FileWords.{begins_file_word, is_file_byte, is_file_word};

const LONGEST: usize = 64;

/// Whether this byte may stand in a file word.
fn is_file_byte(b: u8) -> bool
    ensures { result ≡ is_file_byte b }
{
    b.is_ascii_alphanumeric() || matches!(b, b'_' | b'-' | b'.')
}

/// Whether there is a first byte that a file word may begin with.
fn begins_file_word(text: &[u8]) -> bool
    ensures { result ≡ begins_file_word text.now }
{
    match text {
        [] => false,
        [first, ..] => !matches!(*first, b'-' | b'.'),
    }
}

/// Whether all these bytes may stand in a file word.
fn are_file_bytes(bytes: &[u8]) -> bool
    ensures { result ≡ list_all is_file_byte bytes.now }
{
    bytes.iter().all(|b| is_file_byte(*b))
}

/// Whether the text is a file word: letters, digits, `_`, `-` and `.`, 1 to 64 of them,
/// not beginning with `-` or `.`.
pub fn is_file_word(text: &str) -> bool
    ensures { result ≡ is_file_word text.now }
{
    let bytes = text.as_bytes();
    begins_file_word(bytes) && bytes.len() <= LONGEST && are_file_bytes(bytes)
}
