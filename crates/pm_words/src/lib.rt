//! The words of the program. It knows nothing of scripts, books and sessions.
#![tactic(auto)]

ghost use Rattle.std.specs.Prelude.{◌≡◌, Some, None, IfOk, IsErrOf, map, string_bytes};
ghost use Rattle.pm_words.specs.Examples.{WordsSay, WordsSayNothing};
ghost use Rattle.pm_words.specs.Order.{WordsAreOptions};
ghost use Rattle.pm_words.specs.Spoken.{seen_spoken, seen_words};
ghost use Rattle.pm_words.specs.Words.{words_of};
ghost use Rattle.pm_words.specs.declared.WordsFail.TheVariants.{Memory};

mod command;
mod grammar;

use command::is_taken;
use grammar::{Spoken, said_by};
use std::alloc::{AllocError, Global};
use thiserror::Error;

/// The most words that the program takes.
const MOST_WORDS: usize = 5;

/// What the words say: the file of the rules, if they name one, whether rounds are traced, and the number of the demo,
/// if they ask for one, which is from 1 to 8.
#[derive(Drop)]
pub struct Words {
    pub rules: Option<String>,
    pub trace: bool,
    pub demo: Option<u32>,
}

/// Why words are not taken.
#[derive(Clone, Copy, Debug, PartialEq, Eq, Error)]
pub enum WordsFail {
    /// They are no words of the program.
    #[error("no words of the program")]
    BadWords,
    /// Memory ran out.
    #[error("out of memory")]
    Memory,
}

impl From<AllocError> for WordsFail {
    ghost from_gives = { λ _ e. e ≡ Memory };

    fn from(_e: AllocError) -> WordsFail {
        WordsFail::Memory
    }
}

/// A copy of what was said.
fn owned(alloc: Global, said: Spoken<'_>) -> Result<Words, AllocError>
    ensures { IfOk result (λ w. seen_words w ≡ seen_spoken said.entry) }
{
    let rules = match said.rules {
        Some(name) => Some(String::from_str(alloc, name)?),
        None => None,
    };
    Ok(Words {
        rules,
        trace: said.trace,
        demo: said.demo,
    })
}

/// Reads the words after the program's name: `--trace`, `--rules NAME` or `--rules=NAME`, and `--demo N` or
/// `--demo=N`, in any order, each at most once (`law_words_are_options`), where NAME is a file word and N one digit
/// from 1 to 8.
/// `BadWords` comes exactly where they are no such words.
pub fn read_words(alloc: Global, words: &[String]) -> Result<Words, WordsFail>
    ensures said { IfOk result (λ w. words_of (map string_bytes words.now) ≡ Some (seen_words w)) }
    ensures bad { IsErrOf result WordsFail.BadWords → words_of (map string_bytes words.now) ≡ None }
{
    if words.len() > MOST_WORDS {
        return Err(WordsFail::BadWords);
    }
    let taken = is_taken(alloc, words)?;
    if !taken {
        return Err(WordsFail::BadWords);
    }
    let said = said_by(words).ok_or(WordsFail::BadWords)?;
    let words = owned(alloc, said)?;
    Ok(words)
}

/// Words say what the three options say that they write, one after another in any order, each at most once.
pub fn law_words_are_options()
    ensures { WordsAreOptions }
{}

/// Words, worked by hand: what they say, and what no words of the program are.
pub fn example_words()
    ensures say { WordsSay }
    ensures nothing { WordsSayNothing }
{}
