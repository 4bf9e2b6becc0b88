// Texts cut at a byte.

ghost use Rattle.std.specs.Prelude.{◌≡◌, ◌∷◌, ◌++◌, ◌↔◌, ℕ, List, IfNone, IfSome, IsTrue, MatchOption};
ghost use Rattle.pm_printed.specs.Cuts.{Lacks};
ghost use Rattle.pm_printed.specs.Texts.{refused_line};

/// The first line of a text, and what is behind its LF; none where no LF comes.
pub(crate) fn cut_line<'a>(text: &'a [u8]) -> Option<(&'a [u8], &'a [u8])>
    ensures some { IfSome result (λ x. Lacks 10 x.0.now × (text.now ≡ x.0.now ++ 10 ∷ x.1.now)) }
    ensures none { IfNone result (Lacks 10 text.now) }
{
    for i in 0..text.len() {
        if text[i] == b'\n' {
            let (line, rest) = text.split_at(i);
            return Some((line, &rest[1..]));
        }
    }
    None
}

/// What a text has before its first space and behind it.
pub(crate) fn cut_word<'a>(text: &'a str) -> Option<(&'a str, &'a str)>
    ensures { (xs ys : List ℕ) → Lacks 32 xs → text.now ≡ xs ++ 32 ∷ ys
        → MatchOption result ⊥ (λ x. (x.0.now ≡ xs) × (x.1.now ≡ ys)) }
{
    text.split_once(' ')
}

/// Whether the line is the head of a refusal.
pub(crate) fn is_refused_line(line: &[u8]) -> bool
    ensures { IsTrue result ↔ (line.now ≡ refused_line) }
{
    line == "no 10 NoChain".as_bytes()
}

/// What a text has between its first two spaces and behind them.
pub(crate) fn cut_words<'a>(text: &'a str) -> Option<(&'a str, &'a str)>
    ensures { (word xs ys : List ℕ) → Lacks 32 word → Lacks 32 xs → text.now ≡ word ++ 32 ∷ (xs ++ 32 ∷ ys)
        → MatchOption result ⊥ (λ x. (x.0.now ≡ xs) × (x.1.now ≡ ys)) }
{
    match cut_word(text) {
        Some((_, rest)) => cut_word(rest),
        None => None,
    }
}
