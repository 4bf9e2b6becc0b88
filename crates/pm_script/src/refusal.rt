// Refusals of commands.

ghost use Rattle.pm_script.specs.Replies.{file_why_text, not_made_text, reason_text, refusal_name, refusal_text, why_text};
ghost use Rattle.std.specs.Prelude.{OnOk, codes, string_bytes, ◌++◌, ◌≡◌};

use pm_geom::Evidence;
use pm_object::Condition;
use pm_vector::Ints;
use std::alloc::AllocError;

/// Why a value is refused.
#[derive(Clone, Copy, PartialEq, Eq)]
pub enum ValueWhy {
    /// The text is no JSON.
    Json,
    /// The JSON value has another form.
    Shape,
    /// A number is not allowed.
    Number,
    /// An index is negative, or not below the column count.
    Index,
    /// A count is beyond its limit.
    Limit,
    /// The property is computed and never taken.
    Computed,
    /// The columns differ from the object's.
    Columns,
    /// A row fails a test.
    Row,
}

/// Why a file is refused.
#[derive(Drop)]
pub enum FileWhy {
    /// It has more than `MOST_FILE_BYTES` bytes.
    Limit,
    /// It is no JSON.
    NotJson,
    /// It is no object, or has no text `_type`.
    NoType,
    /// Its type is not known.
    UnknownType,
    /// The value of this key has a fault.
    BadProperty { name: String, why: ValueWhy },
    /// The columns of this key's value differ from those before, or a row of it fails a test.
    BadRow { name: String },
    /// This key of the profile is not right.
    BadProfile { key: String },
}

/// Why an object is not made of two others, and what shows it.
#[derive(Drop)]
pub enum NotMadeWhy {
    /// A number on the way to the sum of the points of these two rows leaves the range, first in this column.
    Combination {
        first: Ints,
        second: Ints,
        column: u32,
    },
    /// This evidence holds of the cones at these places of the two fans.
    Pair {
        a: u32,
        b: u32,
        evidence: Evidence,
    },
}

/// Why a command is refused.
#[derive(Drop)]
pub enum Refusal {
    /// 1: the line is no command.
    BadCommand,
    /// 2: no object has the name.
    UnknownName,
    /// 3: the new name is held.
    NameTaken,
    /// 4: no type has the name.
    UnknownType,
    /// 5: the object's type has no property of the name.
    UnknownProperty,
    /// 6: the value cannot be taken.
    BadValue(ValueWhy),
    /// 7: the property is held.
    AlreadyHeld,
    /// 8: a round was run on the object, or it holds a stored value.
    Sealed,
    /// 9: there are as many objects as there may be.
    ObjectsFull,
    /// 10: no chain of rules leads there.
    NoChain,
    /// 11: too many sets of names cost less than a chain that leads there.
    Crowded,
    /// 12: the store failed.
    StoreFault,
    /// 13: the file holds no object.
    BadFile(FileWhy),
    /// 14: there is no such file.
    NoSuchFile,
    /// 15: the line has more than `MOST_LINE_BYTES` bytes.
    LineTooLong,
    /// 16: no rule of the book has the label, or no client has the name.
    UnknownRule,
    /// 17: this condition does not hold.
    NotFit(Condition),
    /// 18: a number on the way to the new object leaves the range, or too many rows are needed.
    NotMade(NotMadeWhy),
}

/// The word of a reason.
fn why_text(why: ValueWhy) -> &'static str
    ensures { result.now ≡ why_text why }
{
    match why {
        ValueWhy::Json => "json",
        ValueWhy::Shape => "shape",
        ValueWhy::Number => "number",
        ValueWhy::Index => "index",
        ValueWhy::Limit => "limit",
        ValueWhy::Computed => "computed",
        ValueWhy::Columns => "columns",
        ValueWhy::Row => "row",
    }
}

/// Writes a key that has a fault, and the reason.
fn push_bad_property(text: &mut String, name: &str, why: ValueWhy) -> Result<(), AllocError>
    ensures { OnOk result (string_bytes text.new ≡ string_bytes text.old
        ++ codes "BadProperty " ++ name.now ++ codes " " ++ why_text why) }
{
    text.push_str("BadProperty ")?;
    text.push_str(name)?;
    text.push_str(" ")?;
    text.push_str(why_text(why))
}

/// Writes why a file is refused.
fn push_file_why(text: &mut String, why: &FileWhy) -> Result<(), AllocError>
    ensures { OnOk result (string_bytes text.new ≡ string_bytes text.old ++ file_why_text why.now) }
{
    match why {
        FileWhy::Limit => text.push_str("Limit"),
        FileWhy::NotJson => text.push_str("NotJson"),
        FileWhy::NoType => text.push_str("NoType"),
        FileWhy::UnknownType => text.push_str("UnknownType"),
        FileWhy::BadProperty { name, why } => push_bad_property(text, name.as_str(), *why),
        FileWhy::BadRow { name } => {
            text.push_str("BadRow ")?;
            text.push_str(name.as_str())
        }
        FileWhy::BadProfile { key } => {
            text.push_str("BadProfile ")?;
            text.push_str(key.as_str())
        }
    }
}

/// Writes why an object is not made.
fn push_not_made(text: &mut String, why: &NotMadeWhy) -> Result<(), AllocError>
    ensures { OnOk result (string_bytes text.new ≡ string_bytes text.old ++ not_made_text why.now) }
{
    match why {
        NotMadeWhy::Combination { .. } => text.push_str("combination"),
        NotMadeWhy::Pair { evidence, .. } => {
            let number = evidence.number();
            write!(text, "E{number}")
        }
    }
}

/// The number and the name of a refusal.
fn refusal_name(why: &Refusal) -> &'static str
    ensures { result.now ≡ refusal_name why.now }
{
    match why {
        Refusal::BadCommand => "1 BadCommand",
        Refusal::UnknownName => "2 UnknownName",
        Refusal::NameTaken => "3 NameTaken",
        Refusal::UnknownType => "4 UnknownType",
        Refusal::UnknownProperty => "5 UnknownProperty",
        Refusal::BadValue(_) => "6 BadValue",
        Refusal::AlreadyHeld => "7 AlreadyHeld",
        Refusal::Sealed => "8 Sealed",
        Refusal::ObjectsFull => "9 ObjectsFull",
        Refusal::NoChain => "10 NoChain",
        Refusal::Crowded => "11 Crowded",
        Refusal::StoreFault => "12 StoreFault",
        Refusal::BadFile(_) => "13 BadFile",
        Refusal::NoSuchFile => "14 NoSuchFile",
        Refusal::LineTooLong => "15 LineTooLong",
        Refusal::UnknownRule => "16 UnknownRule",
        Refusal::NotFit(_) => "17 NotFit",
        Refusal::NotMade(_) => "18 NotMade",
    }
}

/// Writes the reason of a refusal, where it has one.
fn push_reason(text: &mut String, why: &Refusal) -> Result<(), AllocError>
    ensures { OnOk result (string_bytes text.new ≡ string_bytes text.old ++ reason_text why.now) }
{
    match why {
        Refusal::BadValue(why) => {
            text.push_str(" ")?;
            text.push_str(why_text(*why))
        }
        Refusal::BadFile(why) => {
            text.push_str(" ")?;
            push_file_why(text, why)
        }
        Refusal::NotFit(condition) => {
            text.push_str(" ")?;
            text.push_str(condition.word())
        }
        Refusal::NotMade(why) => {
            text.push_str(" ")?;
            push_not_made(text, why)
        }
        _ => Ok(()),
    }
}

/// Writes the number and the name of a refusal, and the reason where it has one.
pub fn push_refusal(text: &mut String, why: &Refusal) -> Result<(), AllocError>
    ensures { OnOk result (string_bytes text.new ≡ string_bytes text.old ++ refusal_text why.now) }
{
    text.push_str(refusal_name(why))?;
    push_reason(text, why)
}
