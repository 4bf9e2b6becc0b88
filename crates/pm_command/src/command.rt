// Commands.

ghost use Rattle.pm_command.specs.Commands.{Spoken, ref_of, part_of, property_of, type_of, json_of, new_line, take_line, give_line, lookup_line, ensure_line, evidence_line, explain_line, history_line, is_on_files, disable_line, unload_line, copy_line, drop_line, file_line, load_line, origin_line, object_line, save_line, show_line, told_line, chain_line, line_of, command_of, seen_ref, spoken};
ghost use Rattle.pm_command.specs.Grammar.{Speaks};
ghost use Rattle.pm_command.specs.Words.{are_asked, distinct, is_property_word, words_of};
ghost use Rattle.pm_command.specs.declared.command.LineFail.TheVariants.{Memory};
ghost use Rattle.std.specs.List.{list_all, list_any};
ghost use Rattle.std.specs.Prelude.{IfErr, IfOk, None, OnOk, Some, false, length, map, nat_le, string_bytes, true, ◌≡◌};
ghost use Rattle.std.specs.Str.{bytes_eq};
ghost use Rattle.pm_limits.specs.Limits.{most_asked};

use crate::building::{Building, read_build_words};
use crate::lines::is_silent;
use crate::words::{
    is_client_word, is_label, is_name, is_property_word, is_type_word, split_dot, split_word,
};
use pm_limits::MOST_ASKED;
use pm_store::is_file_word;
use std::alloc::{AllocError, Global};
use std::str;
use thiserror::Error;

/// The name of an object, or of a part of one: NAME or NAME.SUB.
#[derive(Drop)]
pub struct Ref {
    pub name: String,
    pub sub: Option<String>,
}

/// A polytope that is made, by its dimension, and a cyclic one by its dimension and the number of its points. Each
/// number is from 1 to 9999 where a line speaks it.
#[derive(Clone, Copy, Debug, PartialEq, Eq)]
pub enum Shape {
    /// The cube.
    Cube(u32),
    /// The simplex.
    Simplex(u32),
    /// The cross-polytope.
    Cross(u32),
    /// The cyclic polytope.
    Cyclic(u32, u32),
}

/// A command, by its words.
#[derive(Drop)]
pub enum Command {
    /// Nothing is asked, and nothing is replied.
    Blank,
    /// `new REF TYPE`
    New {
        obj: Ref,
        of: String,
    },
    /// `take REF PROP JSON`
    Take {
        obj: Ref,
        prop: String,
        json: String,
    },
    /// `give REF PROP`
    Give {
        obj: Ref,
        prop: String,
    },
    /// `lookup REF PROP`
    Lookup {
        obj: Ref,
        prop: String,
    },
    /// `ensure REF PROP ..`, with at most four different properties
    Ensure {
        obj: Ref,
        props: Vec<String>,
    },
    /// `explain REF PROP ..`, with at most four different properties
    Explain {
        obj: Ref,
        props: Vec<String>,
    },
    /// `history NAME`
    History {
        name: String,
    },
    /// `show NAME`
    Show {
        name: String,
    },
    /// `evidence NAME LABEL`
    Evidence {
        name: String,
        label: String,
    },
    /// `rules`
    Rules,
    /// `disable NAME LABEL`
    Disable {
        name: String,
        label: String,
    },
    /// `unload CLIENT`
    Unload {
        client: String,
    },
    /// `copy NAME NEW`
    Copy {
        name: String,
        new: String,
    },
    /// `drop NAME`
    DropObject {
        name: String,
    },
    /// `origin REF PROP`
    Origin {
        obj: Ref,
        prop: String,
    },
    /// `load NAME FILE`
    Load {
        name: String,
        file: String,
    },
    /// `save NAME FILE`
    Save {
        name: String,
        file: String,
    },
    /// `make NEW SHAPE N ..`
    Make {
        new: String,
        shape: Shape,
    },
    /// `WORD NAME NEW`, `WORD NAME NAME NEW`
    Build {
        what: Building,
        new: String,
    },
}

impl Command {
    /// Whether it reads or writes a file.
    pub fn is_on_files(&self) -> bool
        ensures { result ≡ is_on_files (spoken self.now) }
    {
        matches!(self, Command::Load { .. } | Command::Save { .. })
    }
}

/// Why a line gives no command.
#[derive(Clone, Copy, Debug, PartialEq, Eq, Error)]
pub enum LineFail {
    /// The line speaks no command.
    #[error("the line is no command")]
    BadCommand,
    /// There is not enough memory.
    #[error("out of memory")]
    Memory,
}

impl From<AllocError> for LineFail {
    ghost from_gives = { λ _ e. e ≡ Memory };

    fn from(_e: AllocError) -> LineFail {
        LineFail::Memory
    }
}

/// The part NAME.SUB of an object.
fn read_part(alloc: Global, name: &str, sub: &str) -> Result<Ref, LineFail>
    ensures ok { IfOk result (λ r. part_of name.now sub.now ≡ Some (seen_ref r)) }
    ensures refused { IfErr result (λ e. e ≡ LineFail.BadCommand → part_of name.now sub.now ≡ None) }
{
    if is_name(name) && is_name(sub) {
        Ok(Ref {
            name: String::from_str(alloc, name)?,
            sub: Some(String::from_str(alloc, sub)?),
        })
    } else {
        Err(LineFail::BadCommand)
    }
}

/// The REF that a word is.
fn read_ref(alloc: Global, word: &str) -> Result<Ref, LineFail>
    ensures ok { IfOk result (λ r. ref_of word.now ≡ Some (seen_ref r)) }
    ensures refused { IfErr result (λ e. e ≡ LineFail.BadCommand → ref_of word.now ≡ None) }
{
    if is_name(word) {
        Ok(Ref {
            name: String::from_str(alloc, word)?,
            sub: None,
        })
    } else {
        let (name, sub) = split_dot(word);
        read_part(alloc, name, sub)
    }
}

/// The property word that a word is.
fn read_property(alloc: Global, word: &str) -> Result<String, LineFail>
    ensures ok { IfOk result (λ p. property_of word.now ≡ Some (string_bytes p)) }
    ensures refused { IfErr result (λ e. e ≡ LineFail.BadCommand → property_of word.now ≡ None) }
{
    if is_property_word(word) {
        Ok(String::from_str(alloc, word)?)
    } else {
        Err(LineFail::BadCommand)
    }
}

/// The type word that a word is.
fn read_type(alloc: Global, word: &str) -> Result<String, LineFail>
    ensures ok { IfOk result (λ t. type_of word.now ≡ Some (string_bytes t)) }
    ensures refused { IfErr result (λ e. e ≡ LineFail.BadCommand → type_of word.now ≡ None) }
{
    if is_type_word(word) {
        Ok(String::from_str(alloc, word)?)
    } else {
        Err(LineFail::BadCommand)
    }
}

/// The JSON text, which is not empty.
fn read_json(alloc: Global, text: &str) -> Result<String, LineFail>
    ensures ok { IfOk result (λ j. json_of text.now ≡ Some (string_bytes j)) }
    ensures refused { IfErr result (λ e. e ≡ LineFail.BadCommand → json_of text.now ≡ None) }
{
    if text.is_empty() {
        Err(LineFail::BadCommand)
    } else {
        Ok(String::from_str(alloc, text)?)
    }
}

/// The words after `new`.
fn read_new(alloc: Global, words: &str) -> Result<Command, LineFail>
    ensures ok { IfOk result (λ c. new_line words.now ≡ Some (spoken c)) }
    ensures refused { IfErr result (λ e. e ≡ LineFail.BadCommand → new_line words.now ≡ None) }
{
    let (word, of) = split_word(words);
    let obj = read_ref(alloc, word)?;
    let of = read_type(alloc, of)?;
    Ok(Command::New { obj, of })
}

/// The words after `take`.
fn read_take(alloc: Global, words: &str) -> Result<Command, LineFail>
    ensures ok { IfOk result (λ c. take_line words.now ≡ Some (spoken c)) }
    ensures refused { IfErr result (λ e. e ≡ LineFail.BadCommand → take_line words.now ≡ None) }
{
    let (word, others) = split_word(words);
    let (prop, json) = split_word(others);
    let obj = read_ref(alloc, word)?;
    let prop = read_property(alloc, prop)?;
    let json = read_json(alloc, json)?;
    Ok(Command::Take { obj, prop, json })
}

/// The words after `give`.
fn read_give(alloc: Global, words: &str) -> Result<Command, LineFail>
    ensures ok { IfOk result (λ c. give_line words.now ≡ Some (spoken c)) }
    ensures refused { IfErr result (λ e. e ≡ LineFail.BadCommand → give_line words.now ≡ None) }
{
    let (word, prop) = split_word(words);
    let obj = read_ref(alloc, word)?;
    let prop = read_property(alloc, prop)?;
    Ok(Command::Give { obj, prop })
}

/// The words after `lookup`.
fn read_lookup(alloc: Global, words: &str) -> Result<Command, LineFail>
    ensures ok { IfOk result (λ c. lookup_line words.now ≡ Some (spoken c)) }
    ensures refused { IfErr result (λ e. e ≡ LineFail.BadCommand → lookup_line words.now ≡ None) }
{
    let (word, prop) = split_word(words);
    let obj = read_ref(alloc, word)?;
    let prop = read_property(alloc, prop)?;
    Ok(Command::Lookup { obj, prop })
}

/// The words of a text, which stand at single spaces.
fn split_words(alloc: Global, text: &str) -> Result<Vec<&str>, AllocError>
    ensures { IfOk result (λ v. map (λ w. w.now) v.items ≡ words_of text.now) }
{
    text.split(' ').collect(alloc)
}

/// Whether each word is a property word.
fn are_property_words(words: &[&str]) -> bool
    ensures { result ≡ list_all (λ w. is_property_word w.now) words.now }
{
    words.iter().all(|word| is_property_word(word))
}

/// Whether the word is among these.
fn is_among(words: &[&str], word: &str) -> bool
    ensures { result ≡ list_any (λ w. bytes_eq word.now w.now) words.now }
{
    words
        .iter()
        .any(|other| word.as_bytes() == other.as_bytes())
}

/// Whether at most four of the words are different.
fn are_few(alloc: Global, words: &[&str]) -> Result<bool, AllocError>
    ensures { IfOk result (λ b. b
        ≡ nat_le (length (distinct (map (λ w. w.now) words.now))) most_asked) }
{
    let mut seen: Vec<&str> = Vec::new(alloc);
    for word in words {
        if !is_among(&seen, word) {
            if seen.len() == MOST_ASKED {
                return Ok(false);
            }
            seen.push(*word)?;
        }
    }
    Ok(true)
}

/// The same words.
fn copies(alloc: Global, words: &[&str]) -> Result<Vec<String>, AllocError>
    ensures { IfOk result (λ v. map string_bytes v.items ≡ map (λ w. w.now) words.now) }
{
    let mut copies = Vec::new(alloc);
    for word in words {
        copies.push(String::from_str(alloc, word)?)?;
    }
    Ok(copies)
}

/// The properties that the words of a text ask for.
fn read_asked(alloc: Global, text: &str) -> Result<Vec<String>, LineFail>
    ensures ok { IfOk result (λ v. map string_bytes v.items ≡ words_of text.now) }
    ensures asked { OnOk result (are_asked (words_of text.now) ≡ true) }
    ensures refused { IfErr result (λ e. e ≡ LineFail.BadCommand
        → are_asked (words_of text.now) ≡ false) }
{
    let words = split_words(alloc, text)?;
    if are_property_words(&words) && are_few(alloc, &words)? {
        Ok(copies(alloc, &words)?)
    } else {
        Err(LineFail::BadCommand)
    }
}

/// The words after `ensure`.
fn read_ensure(alloc: Global, words: &str) -> Result<Command, LineFail>
    ensures ok { IfOk result (λ c. ensure_line words.now ≡ Some (spoken c)) }
    ensures refused { IfErr result (λ e. e ≡ LineFail.BadCommand → ensure_line words.now ≡ None) }
{
    let (word, others) = split_word(words);
    let obj = read_ref(alloc, word)?;
    let props = read_asked(alloc, others)?;
    Ok(Command::Ensure { obj, props })
}

/// The words after `explain`.
fn read_explain(alloc: Global, words: &str) -> Result<Command, LineFail>
    ensures ok { IfOk result (λ c. explain_line words.now ≡ Some (spoken c)) }
    ensures refused { IfErr result (λ e. e ≡ LineFail.BadCommand → explain_line words.now ≡ None) }
{
    let (word, others) = split_word(words);
    let obj = read_ref(alloc, word)?;
    let props = read_asked(alloc, others)?;
    Ok(Command::Explain { obj, props })
}

/// The word after `history`.
fn read_history(alloc: Global, word: &str) -> Result<Command, LineFail>
    ensures ok { IfOk result (λ c. history_line word.now ≡ Some (spoken c)) }
    ensures refused { IfErr result (λ e. e ≡ LineFail.BadCommand → history_line word.now ≡ None) }
{
    if is_name(word) {
        Ok(Command::History {
            name: String::from_str(alloc, word)?,
        })
    } else {
        Err(LineFail::BadCommand)
    }
}

/// The word after `show`.
fn read_show(alloc: Global, word: &str) -> Result<Command, LineFail>
    ensures ok { IfOk result (λ c. show_line word.now ≡ Some (spoken c)) }
    ensures refused { IfErr result (λ e. e ≡ LineFail.BadCommand → show_line word.now ≡ None) }
{
    if is_name(word) {
        Ok(Command::Show {
            name: String::from_str(alloc, word)?,
        })
    } else {
        Err(LineFail::BadCommand)
    }
}

/// The words after `evidence`.
fn read_evidence(alloc: Global, words: &str) -> Result<Command, LineFail>
    ensures ok { IfOk result (λ c. evidence_line words.now ≡ Some (spoken c)) }
    ensures refused { IfErr result (λ e. e ≡ LineFail.BadCommand → evidence_line words.now ≡ None) }
{
    let (name, label) = split_word(words);
    if is_name(name) && is_label(label) {
        Ok(Command::Evidence {
            name: String::from_str(alloc, name)?,
            label: String::from_str(alloc, label)?,
        })
    } else {
        Err(LineFail::BadCommand)
    }
}

/// The words after `disable`.
fn read_disable(alloc: Global, words: &str) -> Result<Command, LineFail>
    ensures ok { IfOk result (λ c. disable_line words.now ≡ Some (spoken c)) }
    ensures refused { IfErr result (λ e. e ≡ LineFail.BadCommand → disable_line words.now ≡ None) }
{
    let (name, label) = split_word(words);
    if is_name(name) && is_label(label) {
        Ok(Command::Disable {
            name: String::from_str(alloc, name)?,
            label: String::from_str(alloc, label)?,
        })
    } else {
        Err(LineFail::BadCommand)
    }
}

/// The word after `unload`.
fn read_unload(alloc: Global, word: &str) -> Result<Command, LineFail>
    ensures ok { IfOk result (λ c. unload_line word.now ≡ Some (spoken c)) }
    ensures refused { IfErr result (λ e. e ≡ LineFail.BadCommand → unload_line word.now ≡ None) }
{
    if is_client_word(word) {
        Ok(Command::Unload {
            client: String::from_str(alloc, word)?,
        })
    } else {
        Err(LineFail::BadCommand)
    }
}

/// The words after `copy`.
fn read_copy(alloc: Global, words: &str) -> Result<Command, LineFail>
    ensures ok { IfOk result (λ c. copy_line words.now ≡ Some (spoken c)) }
    ensures refused { IfErr result (λ e. e ≡ LineFail.BadCommand → copy_line words.now ≡ None) }
{
    let (name, new) = split_word(words);
    if is_name(name) && is_name(new) {
        Ok(Command::Copy {
            name: String::from_str(alloc, name)?,
            new: String::from_str(alloc, new)?,
        })
    } else {
        Err(LineFail::BadCommand)
    }
}

/// The word after `drop`.
fn read_drop(alloc: Global, word: &str) -> Result<Command, LineFail>
    ensures ok { IfOk result (λ c. drop_line word.now ≡ Some (spoken c)) }
    ensures refused { IfErr result (λ e. e ≡ LineFail.BadCommand → drop_line word.now ≡ None) }
{
    if is_name(word) {
        Ok(Command::DropObject {
            name: String::from_str(alloc, word)?,
        })
    } else {
        Err(LineFail::BadCommand)
    }
}

/// The words after `origin`.
fn read_origin(alloc: Global, words: &str) -> Result<Command, LineFail>
    ensures ok { IfOk result (λ c. origin_line words.now ≡ Some (spoken c)) }
    ensures refused { IfErr result (λ e. e ≡ LineFail.BadCommand → origin_line words.now ≡ None) }
{
    let (word, prop) = split_word(words);
    let obj = read_ref(alloc, word)?;
    let prop = read_property(alloc, prop)?;
    Ok(Command::Origin { obj, prop })
}

/// The words after `load`.
fn read_load(alloc: Global, words: &str) -> Result<Command, LineFail>
    ensures ok { IfOk result (λ c. load_line words.now ≡ Some (spoken c)) }
    ensures refused { IfErr result (λ e. e ≡ LineFail.BadCommand → load_line words.now ≡ None) }
{
    let (name, file) = split_word(words);
    if is_name(name) && is_file_word(file) {
        Ok(Command::Load {
            name: String::from_str(alloc, name)?,
            file: String::from_str(alloc, file)?,
        })
    } else {
        Err(LineFail::BadCommand)
    }
}

/// The words after `save`.
fn read_save(alloc: Global, words: &str) -> Result<Command, LineFail>
    ensures ok { IfOk result (λ c. save_line words.now ≡ Some (spoken c)) }
    ensures refused { IfErr result (λ e. e ≡ LineFail.BadCommand → save_line words.now ≡ None) }
{
    let (name, file) = split_word(words);
    if is_name(name) && is_file_word(file) {
        Ok(Command::Save {
            name: String::from_str(alloc, name)?,
            file: String::from_str(alloc, file)?,
        })
    } else {
        Err(LineFail::BadCommand)
    }
}

/// The command on files of this first word.
fn read_file_words(alloc: Global, first: &str, words: &str) -> Result<Command, LineFail>
    ensures ok { IfOk result (λ c. file_line first.now words.now ≡ Some (spoken c)) }
    ensures refused { IfErr result (λ e. e ≡ LineFail.BadCommand
        → file_line first.now words.now ≡ None) }
{
    if first == "load" {
        read_load(alloc, words)
    } else if first == "save" {
        read_save(alloc, words)
    } else {
        read_build_words(alloc, first, words)
    }
}

/// The command of this first word that copies an object, lets it go, or asks where a value is from.
fn read_object_words(alloc: Global, first: &str, words: &str) -> Result<Command, LineFail>
    ensures ok { IfOk result (λ c. object_line first.now words.now ≡ Some (spoken c)) }
    ensures refused { IfErr result (λ e. e ≡ LineFail.BadCommand
        → object_line first.now words.now ≡ None) }
{
    if first == "copy" {
        read_copy(alloc, words)
    } else if first == "drop" {
        read_drop(alloc, words)
    } else if first == "origin" {
        read_origin(alloc, words)
    } else {
        read_file_words(alloc, first, words)
    }
}

/// The command of this first word that tells what an object holds, or why a rule is barred there.
fn read_told_words(alloc: Global, first: &str, words: &str) -> Result<Command, LineFail>
    ensures ok { IfOk result (λ c. told_line first.now words.now ≡ Some (spoken c)) }
    ensures refused { IfErr result (λ e. e ≡ LineFail.BadCommand
        → told_line first.now words.now ≡ None) }
{
    if first == "show" {
        read_show(alloc, words)
    } else if first == "evidence" {
        read_evidence(alloc, words)
    } else {
        read_object_words(alloc, first, words)
    }
}

/// The command on chains of this first word, with these words after it.
fn read_chain_words(alloc: Global, first: &str, words: &str) -> Result<Command, LineFail>
    ensures ok { IfOk result (λ c. chain_line first.now words.now ≡ Some (spoken c)) }
    ensures refused { IfErr result (λ e. e ≡ LineFail.BadCommand
        → chain_line first.now words.now ≡ None) }
{
    if first == "ensure" {
        read_ensure(alloc, words)
    } else if first == "explain" {
        read_explain(alloc, words)
    } else if first == "history" {
        read_history(alloc, words)
    } else {
        read_told_words(alloc, first, words)
    }
}

/// The command of this first word, with these words after it.
fn read_words(alloc: Global, first: &str, words: &str) -> Result<Command, LineFail>
    ensures ok { IfOk result (λ c. line_of first.now words.now ≡ Some (spoken c)) }
    ensures refused { IfErr result (λ e. e ≡ LineFail.BadCommand → line_of first.now words.now ≡ None) }
{
    if first == "new" {
        read_new(alloc, words)
    } else if first == "take" {
        read_take(alloc, words)
    } else if first == "give" {
        read_give(alloc, words)
    } else if first == "lookup" {
        read_lookup(alloc, words)
    } else if first == "disable" {
        read_disable(alloc, words)
    } else if first == "unload" {
        read_unload(alloc, words)
    } else {
        read_chain_words(alloc, first, words)
    }
}

/// The command of a line.
fn read_command(alloc: Global, line: &[u8]) -> Result<Command, LineFail>
    ensures ok { IfOk result (λ c. command_of line.now ≡ Some (spoken c)) }
    ensures refused { IfErr result (λ e. e ≡ LineFail.BadCommand → command_of line.now ≡ None) }
{
    if is_silent(line) {
        return Ok(Command::Blank);
    }
    let Ok(text) = str::from_utf8(line) else {
        return Err(LineFail::BadCommand);
    };
    if text == "rules" {
        return Ok(Command::Rules);
    }
    let (first, words) = split_word(text);
    read_words(alloc, first, words)
}

/// The command that a line speaks, whose bytes are given without its line end.
/// `BadCommand` exactly where it speaks none.
pub fn read_line(alloc: Global, line: &[u8]) -> Result<Command, LineFail>
    ensures ok { IfOk result (λ c. command_of line.now ≡ Some (spoken c)) }
    ensures refused { IfErr result (λ e. e ≡ LineFail.BadCommand → command_of line.now ≡ None) }
    ensures spoken { IfOk result (λ c. Speaks line.now (spoken c)) }
    ensures unspoken { IfErr result (λ e. e ≡ LineFail.BadCommand → (s : Spoken) → Speaks line.now s → ⊥) }
{
    read_command(alloc, line)
}
