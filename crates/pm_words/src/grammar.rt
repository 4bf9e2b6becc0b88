// The grammar of the words.

ghost use Rattle.std.specs.Prelude.{◌≡◌, ◌≤◌, length, map, option_map, string_bytes};
ghost use Rattle.pm_words.specs.Spoken.{seen_spoken};
ghost use Rattle.pm_words.specs.Words.{demo_number, with_demo, with_number, with_rules, with_trace, with_word, words_of};

use pm_store::is_file_word;

/// What words say.
#[derive(Clone, Copy)]
pub(crate) struct Spoken<'a> {
    pub(crate) rules: Option<&'a str>,
    pub(crate) trace: bool,
    pub(crate) demo: Option<u32>,
}

const NOTHING: Spoken<'static> = Spoken {
    rules: None,
    trace: false,
    demo: None,
};

/// `--trace` beside other words.
fn with_trace(others: Option<Spoken<'_>>) -> Option<Spoken<'_>>
    ensures { option_map seen_spoken result ≡ with_trace (option_map seen_spoken others.entry) }
{
    match others {
        Some(said) if !said.trace => Some(Spoken {
            trace: true,
            ..said
        }),
        _ => None,
    }
}

/// The rules of a file beside other words.
fn with_rules<'a>(name: &'a str, others: Option<Spoken<'a>>) -> Option<Spoken<'a>>
    ensures { option_map seen_spoken result ≡ with_rules name.now (option_map seen_spoken others.entry) }
{
    match others {
        Some(said) if said.rules.is_none() && is_file_word(name) => Some(Spoken {
            rules: Some(name),
            ..said
        }),
        _ => None,
    }
}

/// The number of a demo: one digit from 1 to 8.
fn demo_number(text: &str) -> Option<u32>
    ensures { result ≡ demo_number text.now }
{
    match text.as_bytes() {
        [digit] if b'1' <= *digit && *digit <= b'8' => Some(u32::from(*digit - b'0')),
        _ => None,
    }
}

/// A demo beside other words.
fn with_demo<'a>(text: &str, others: Option<Spoken<'a>>) -> Option<Spoken<'a>>
    ensures { option_map seen_spoken result ≡ with_demo text.now (option_map seen_spoken others.entry) }
{
    let said = others?;
    let number = demo_number(text)?;
    if said.demo.is_some() {
        return None;
    }
    Some(Spoken {
        demo: Some(number),
        ..said
    })
}

/// One word beside others.
fn with_word<'a>(word: &'a str, others: Option<Spoken<'a>>) -> Option<Spoken<'a>>
    ensures { option_map seen_spoken result ≡ with_word word.now (option_map seen_spoken others.entry) }
{
    if word == "--trace" {
        return with_trace(others);
    }
    if let Some(name) = word.strip_prefix("--rules=") {
        return with_rules(name, others);
    }
    match word.strip_prefix("--demo=") {
        Some(text) => with_demo(text, others),
        None => None,
    }
}

/// What the words say, if they are words of the program.
pub(crate) fn said_by(words: &[String]) -> Option<Spoken<'_>>
    ensures { option_map seen_spoken result ≡ words_of (map string_bytes words.now) }
{
    match words {
        [] => Some(NOTHING),
        [word] => with_word(word.as_str(), Some(NOTHING)),
        [word, name, rest @ ..] if word.as_str() == "--rules" => {
            with_rules(name.as_str(), said_by(rest))
        }
        [word, text, rest @ ..] if word.as_str() == "--demo" => {
            with_demo(text.as_str(), said_by(rest))
        }
        [word, rest @ ..] => with_word(word.as_str(), said_by(rest)),
    }
}
