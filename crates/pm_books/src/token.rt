// Tokens.

ghost use Rattle.std.specs.Prelude.{◌+◌, ◌^◌, ◌<◌};

/// A token: the place of its first byte in the text, and its bytes.
#[derive(Clone, Copy)]
pub struct Token<'a> {
    /// The place of the first byte.
    pub place: usize,
    /// The bytes.
    pub text: &'a [u8],
    ghost inside: { place + 1 < 2 ^ 64 },
}
