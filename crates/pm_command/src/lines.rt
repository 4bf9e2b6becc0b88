// The lines of a script.

ghost use Rattle.pm_command.specs.Lines.{Line as LineOf, lines_of, without_last_cr, text_of, is_too_long, is_silent, is_blank};
ghost use Rattle.std.specs.Prelude.{ℕ, ◌∷◌, ◌==◌, ◌<◌, ◌≤◌, ◌≡◌, ◌≢◌, length, slice_index};

use pm_limits::MOST_LINE_BYTES;
use std::marker::Model;

/// A line, without the LF that ended it, if one did.
#[derive(Drop)]
pub struct Line<'a> {
    bytes: &'a [u8],
    ended: bool,
}

impl<'a> Model for Line<'a> {
    ghost Value = { LineOf };

    ghost view = { λ l. record { bytes = l.bytes.now; ended = l.ended } };
}

/// The bytes without a CR at their end.
fn without_last_cr(bytes: &[u8]) -> &[u8]
    ensures { result.now ≡ without_last_cr bytes.now }
{
    match bytes.split_last() {
        Some((last, front)) if *last == b'\r' => front,
        _ => bytes,
    }
}

impl<'a> Line<'a> {
    /// The line of these bytes, and whether an LF ended it.
    pub fn new(bytes: &'a [u8], ended: bool) -> Line<'a>
        ensures { result ≡ record { bytes = bytes.entry.now; ended = ended } }
    {
        Line { bytes, ended }
    }

    /// Whether the line has more than `MOST_LINE_BYTES` bytes.
    pub fn is_too_long(&self) -> bool
        ensures { result ≡ is_too_long self.now }
    {
        self.bytes.len() > MOST_LINE_BYTES
    }

    /// The line's bytes without the CR just before its LF.
    pub fn text(&self) -> &'a [u8]
        ensures { result.now ≡ text_of self.now }
    {
        if self.ended {
            without_last_cr(self.bytes)
        } else {
            self.bytes
        }
    }
}

/// The place of the first LF, or the length where there is none.
pub fn first_break(bytes: &[u8]) -> usize
    ensures within { result ≤ length bytes.now }
    ensures before { (k : ℕ) → k < result → slice_index bytes.now k ≢ 10 }
    ensures found { result < length bytes.now → slice_index bytes.now result ≡ 10 }
{
    for (i, b) in bytes.iter().enumerate() {
        if *b == b'\n' {
            return i;
        }
    }
    bytes.len()
}

/// The first line, and what is after it.
pub fn split_line(bytes: &[u8]) -> (Line<'_>, &[u8])
    requires { 0 < length bytes.now }
    ensures lines { lines_of bytes.now ≡ result.0 ∷ lines_of result.1.now }
    ensures shorter { length result.1.now < length bytes.now }
{
    let end = first_break(bytes);
    if end < bytes.len() {
        let line = Line {
            bytes: &bytes[..end],
            ended: true,
        };
        (line, &bytes[end + 1..])
    } else {
        let line = Line {
            bytes,
            ended: false,
        };
        (line, &bytes[end..])
    }
}

/// Whether there are only spaces and tabs.
fn is_blank(text: &[u8]) -> bool
    ensures { result ≡ is_blank text.now }
{
    text.iter().all(|b| *b == b' ' || *b == b'\t')
}

/// Whether a line that begins with this byte is a comment.
fn begins_comment(first: u8) -> bool
    ensures { result ≡ (first == 35) }
{
    first == b'#'
}

/// Whether a line with this text has no reply.
pub fn is_silent(text: &[u8]) -> bool
    ensures { result ≡ is_silent text.now }
{
    match text {
        [] => true,
        [first, ..] => begins_comment(*first) || is_blank(text),
    }
}
