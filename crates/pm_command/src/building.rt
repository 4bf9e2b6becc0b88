// Commands that make objects, and that build them of others.

ghost use Rattle.pm_command.specs.Builders.{builder_named, builder_of};
ghost use Rattle.pm_command.specs.Commands.{build_line, built_line, cyclic_of, make_line, seen_shape, shape_of, spoken, two_names};
ghost use Rattle.pm_command.specs.Words.{first_word, number_of, rest};
ghost use Rattle.pm_command.specs.declared.command.LineFail.{LineFail};
ghost use Rattle.std.specs.Option.{option_map};
ghost use Rattle.std.specs.Prelude.{IfErr, IfOk, None, Some, string_bytes, ◌≡◌};

use crate::command::{Command, LineFail, Shape};
use crate::words::{is_name, is_number_word, split_word};
use std::alloc::Global;

/// What is built of one object.
#[derive(Clone, Copy, PartialEq, Eq)]
pub enum Unary {
    /// The polar of a polytope.
    Polar,
    /// The pyramid over a polytope.
    Pyramid,
    /// The normal fan of a polytope.
    NormalFan,
    /// The face fan of a polytope.
    FaceFan,
}

/// What is built of two objects.
#[derive(Clone, Copy, PartialEq, Eq)]
pub enum Binary {
    /// The product of two polytopes.
    Product,
    /// The Minkowski sum of two polytopes.
    Minkowski,
    /// The common refinement of two fans.
    Refine,
}

/// What is built, of one object or of two.
#[derive(Clone, Copy, PartialEq, Eq)]
pub enum Builder {
    One(Unary),
    Two(Binary),
}

/// What is built, and the names of the objects that it is built of.
#[derive(Drop)]
pub enum Building {
    One(Unary, String),
    Two(Binary, String, String),
}

impl Builder {
    /// What the first word of a line builds.
    fn named(word: &str) -> Option<Builder>
        ensures { result ≡ builder_named word.now }
    {
        match word {
            "polar" => Some(Builder::One(Unary::Polar)),
            "pyramid" => Some(Builder::One(Unary::Pyramid)),
            "normalfan" => Some(Builder::One(Unary::NormalFan)),
            "facefan" => Some(Builder::One(Unary::FaceFan)),
            "product" => Some(Builder::Two(Binary::Product)),
            "minkowski" => Some(Builder::Two(Binary::Minkowski)),
            "refine" => Some(Builder::Two(Binary::Refine)),
            _ => None,
        }
    }
}

impl Building {
    /// What is built.
    pub fn builder(&self) -> Builder
        ensures { result ≡ builder_of self.now }
    {
        match self {
            Building::One(what, _) => Builder::One(*what),
            Building::Two(what, _, _) => Builder::Two(*what),
        }
    }
}

/// The number that a word writes, from 1 to 9999.
fn read_number(word: &str) -> Option<u32>
    ensures { result ≡ number_of word.now }
{
    if is_number_word(word) {
        word.parse::<u32>().ok()
    } else {
        None
    }
}

/// The cyclic polytope of two numbers.
fn read_cyclic(numbers: &str) -> Option<Shape>
    ensures { option_map seen_shape result ≡ cyclic_of (number_of (first_word numbers.now))
        (number_of (rest numbers.now)) }
{
    let (first, second) = split_word(numbers);
    let dim = read_number(first)?;
    let points = read_number(second)?;
    Some(Shape::Cyclic(dim, points))
}

/// The shape of this word, with these numbers after it.
fn read_shape(word: &str, numbers: &str) -> Option<Shape>
    ensures { option_map seen_shape result ≡ shape_of word.now numbers.now }
{
    match word {
        "cube" => Some(Shape::Cube(read_number(numbers)?)),
        "simplex" => Some(Shape::Simplex(read_number(numbers)?)),
        "cross" => Some(Shape::Cross(read_number(numbers)?)),
        "cyclic" => read_cyclic(numbers),
        _ => None,
    }
}

/// The words after `make`.
fn read_make(alloc: Global, words: &str) -> Result<Command, LineFail>
    ensures ok { IfOk result (λ c. make_line words.now ≡ Some (spoken c)) }
    ensures refused { IfErr result (λ e. e ≡ LineFail.BadCommand → make_line words.now ≡ None) }
{
    let (new, others) = split_word(words);
    let (word, numbers) = split_word(others);
    if !is_name(new) {
        return Err(LineFail::BadCommand);
    }
    let shape = read_shape(word, numbers).ok_or(LineFail::BadCommand)?;
    Ok(Command::Make {
        new: String::from_str(alloc, new)?,
        shape,
    })
}

/// Two names.
fn read_names(alloc: Global, words: &str) -> Result<(String, String), LineFail>
    ensures ok { IfOk result (λ names. two_names words.now
        ≡ Some (string_bytes names.0, string_bytes names.1)) }
    ensures refused { IfErr result (λ e. e ≡ LineFail.BadCommand → two_names words.now ≡ None) }
{
    let (name, new) = split_word(words);
    if is_name(name) && is_name(new) {
        Ok((
            String::from_str(alloc, name)?,
            String::from_str(alloc, new)?,
        ))
    } else {
        Err(LineFail::BadCommand)
    }
}

/// The words after that of a command that builds an object of others.
fn read_building(alloc: Global, builder: Builder, words: &str) -> Result<Command, LineFail>
    ensures ok { IfOk result (λ c. built_line builder words.now ≡ Some (spoken c)) }
    ensures refused { IfErr result (λ e. e ≡ LineFail.BadCommand → built_line builder words.now ≡ None) }
{
    match builder {
        Builder::One(what) => {
            let (name, new) = read_names(alloc, words)?;
            Ok(Command::Build {
                what: Building::One(what, name),
                new,
            })
        }
        Builder::Two(what) => {
            let (first, others) = split_word(words);
            if !is_name(first) {
                return Err(LineFail::BadCommand);
            }
            let (second, new) = read_names(alloc, others)?;
            let first = String::from_str(alloc, first)?;
            Ok(Command::Build {
                what: Building::Two(what, first, second),
                new,
            })
        }
    }
}

/// The command of this first word that makes an object, or builds one of others.
pub fn read_build_words(alloc: Global, first: &str, words: &str) -> Result<Command, LineFail>
    ensures ok { IfOk result (λ c. build_line first.now words.now ≡ Some (spoken c)) }
    ensures refused { IfErr result (λ e. e ≡ LineFail.BadCommand
        → build_line first.now words.now ≡ None) }
{
    if first == "make" {
        return read_make(alloc, words);
    }
    let builder = Builder::named(first).ok_or(LineFail::BadCommand)?;
    read_building(alloc, builder, words)
}
