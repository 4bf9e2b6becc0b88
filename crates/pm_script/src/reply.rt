// Replies.

ghost use Rattle.pm_files.specs.ValueJson.{value_text};
ghost use Rattle.pm_object.specs.Views.{round_seen};
ghost use Rattle.pm_weights.specs.Weights.{cost_text};
ghost use Rattle.pm_script.specs.Replies.{done, ignored_text, is_refusal, loaded, name_shown, names_seen, no_rounds, nothing, planned, refused, remarks, remarks_text, reply_text, rounds_text, rule_text, seen, spaced_name, table_row_text, tells};
ghost use Rattle.pm_types.specs.Views.{view_of};
ghost use Rattle.std.specs.Prelude.{Bool, IfOk, false, None, OnOk, [], codes, decimal, flat_map, if◌then◌else◌, length, map, string_bytes, ◌++◌, ◌||◌, ◌≡◌};

use crate::chains::{push_barred, push_exclusions, push_rounds, push_rows, push_rules_of};
use crate::names::{Bar, Names};
use crate::refusal::{Refusal, push_refusal};
use crate::shown::{ProgramHeld, evidence_lines, name_shown, object_lines, origin_line};
use pm_files::value_text;
use pm_object::{Excluded, Origin, Round};
use pm_rules::{Table, is_word};
use pm_types::{ObjectType, PropId, RuleId, Value};
use pm_weights::Cost;
use serde_json::Value as Json;
use std::alloc::{AllocError, Global};
use std::fmt::Write;

/// What is replied to a command.
#[derive(Drop)]
pub enum Reply {
    /// The command was carried out, after these rounds; there are none but for commands that build objects.
    Done {
        rounds: Vec<Round>,
        names: Names,
    },
    /// A value of an object's property, or of a program's, with the rounds that found it; `name` is the REF that was
    /// asked.
    Value {
        name: String,
        of: ObjectType,
        prop: PropId,
        value: Value,
        rounds: Vec<Round>,
        names: Names,
    },
    /// The properties are held, by these rounds.
    Ensured {
        rounds: Vec<Round>,
        names: Names,
    },
    /// A least chain to the properties, what it weighs, and the table that proves it least.
    Explained {
        chain: Vec<RuleId>,
        weight: Cost,
        table: Table,
        names: Names,
    },
    /// The rounds and the exclusions of an object.
    History {
        rounds: Vec<Round>,
        excluded: Vec<Excluded>,
        names: Names,
    },
    /// How many rules the book has, and its text.
    Rules {
        count: usize,
        text: String,
    },
    /// How the value came to be held.
    Origin(Origin),
    /// An object was made of what a file holds. `ignored`: the names in the file that were read over.
    Loaded {
        ignored: Vec<String>,
    },
    /// What an object of the type holds, and what its linear programs do, in the order of the table of properties.
    Held {
        of: ObjectType,
        held: Vec<(PropId, Origin)>,
        programs: Vec<ProgramHeld>,
    },
    /// The exclusions of a rule by evidence.
    Evidence {
        excluded: Vec<Excluded>,
        names: Names,
    },
    /// The property is not held.
    Undef,
    /// The command is refused. `ensured`: the rounds are told whether they are traced or not. `barred` and `table`
    /// are told where there is a table, of an explanation.
    Refused {
        why: Refusal,
        ensured: bool,
        rounds: Vec<Round>,
        barred: Vec<(RuleId, Bar)>,
        table: Option<Table>,
        names: Names,
    },
}

impl Reply {
    /// The command was carried out, without rounds.
    pub fn done(alloc: Global) -> Reply
        ensures { seen result ≡ done no_rounds }
    {
        Reply::Done {
            rounds: Vec::new(alloc),
            names: Names::none(alloc),
        }
    }

    /// Whether the reply is a refusal.
    pub fn is_refusal(&self) -> bool
        ensures { result ≡ is_refusal (seen self.now) }
    {
        matches!(self, Reply::Refused { .. })
    }

    /// A refusal after these rounds, which are told always, or where they are traced.
    pub fn refused_after(
        alloc: Global,
        why: Refusal,
        always: bool,
        rounds: Vec<Round>,
        names: Names,
    ) -> Reply
        ensures { seen result ≡ refused why
            (remarks always (map round_seen rounds.items) [] None (names_seen names)) }
    {
        Reply::Refused {
            why,
            ensured: always,
            rounds,
            barred: Vec::new(alloc),
            table: None,
            names,
        }
    }

    /// A refusal beside which these rules are said to be barred, with the table of the planner.
    pub fn refused_by_plan(
        alloc: Global,
        why: Refusal,
        barred: Vec<(RuleId, Bar)>,
        table: Table,
        names: Names,
    ) -> Reply
        ensures { seen result ≡ refused why
            (planned barred.items table.rows.items (names_seen names)) }
    {
        Reply::Refused {
            why,
            ensured: false,
            rounds: Vec::new(alloc),
            barred,
            table: Some(table),
            names,
        }
    }

    /// A refusal beside which nothing is said.
    pub fn refused(alloc: Global, why: Refusal) -> Reply
        ensures { seen result ≡ refused why nothing }
    {
        Reply::Refused {
            why,
            ensured: false,
            rounds: Vec::new(alloc),
            barred: Vec::new(alloc),
            table: None,
            names: Names::none(alloc),
        }
    }
}

/// Writes a value of a property, after the name of its object or program.
fn push_shown(
    alloc: Global,
    text: &mut String,
    of: ObjectType,
    prop: PropId,
    value: &Value,
) -> Result<(), AllocError>
    ensures { OnOk result (string_bytes text.new ≡ string_bytes text.old
        ++ codes " " ++ name_shown of prop ++ codes " " ++ value_text prop (view_of value.now)
        ++ codes "\n") }
{
    text.push_str(" ")?;
    text.push_str(name_shown(of, prop))?;
    text.push_str(" ")?;
    text.push_str(value_text(alloc, prop, value)?.as_str())?;
    text.push_str("\n")
}

/// Writes how many rules a book has, and its text.
fn push_rules(text: &mut String, count: usize, book: &str) -> Result<(), AllocError>
    ensures { OnOk result (string_bytes text.new ≡ string_bytes text.old
        ++ codes "rules " ++ decimal count ++ codes "\n" ++ book.now) }
{
    write!(text, "rules {count}\n")?;
    text.push_str(book)
}

/// Writes how many rounds there are, and their lines.
fn push_counted(
    text: &mut String,
    word: &str,
    rounds: &[Round],
    names: &Names,
) -> Result<(), AllocError>
    ensures { OnOk result (string_bytes text.new ≡ string_bytes text.old ++ word.now
        ++ codes " " ++ decimal (length rounds.now) ++ codes "\n"
        ++ rounds_text (record { rounds = map round_seen rounds.now; names = names_seen names.now })) }
{
    let count = rounds.len();
    write!(text, "{word} {count}\n")?;
    push_rounds(text, names, rounds)
}

/// Writes a chain with its weight and table.
fn push_plan(
    text: &mut String,
    chain: &[RuleId],
    weight: Cost,
    table: &Table,
    names: &Names,
) -> Result<(), AllocError>
    ensures { OnOk result (string_bytes text.new ≡ string_bytes text.old ++ codes "plan "
        ++ cost_text weight ++ codes "\n" ++ flat_map (rule_text (names_seen names.now)) chain.now
        ++ flat_map table_row_text table.now.rows.items) }
{
    write!(text, "plan {weight}\n")?;
    push_rules_of(text, names, chain)?;
    push_rows(text, &table.rows)
}

/// Writes rounds where they are told.
fn push_told(
    text: &mut String,
    told: bool,
    rounds: &[Round],
    names: &Names,
) -> Result<(), AllocError>
    ensures { OnOk result (string_bytes text.new ≡ string_bytes text.old ++ (if told then
        rounds_text (record { rounds = map round_seen rounds.now; names = names_seen names.now })
        else [])) }
{
    if told {
        push_rounds(text, names, rounds)
    } else {
        Ok(())
    }
}

/// Whether rounds are told: always, or where they are traced.
fn is_told(trace: bool, always: bool) -> bool
    ensures { result ≡ (trace || always) }
{
    trace || always
}

/// Writes what is said beside a refusal.
fn push_remarks(
    text: &mut String,
    told: bool,
    rounds: &[Round],
    barred: &[(RuleId, Bar)],
    table: &Option<Table>,
    names: &Names,
) -> Result<(), AllocError>
    ensures { (trace always : Bool) → told ≡ (trace || always) →
        OnOk result (string_bytes text.new ≡ string_bytes text.old
        ++ remarks_text trace (remarks always (map round_seen rounds.now) barred.now table.now
        (names_seen names.now))) }
{
    match table {
        Some(table) => {
            push_barred(text, names, barred)?;
            push_rows(text, &table.rows)
        }
        None => push_told(text, told, rounds, names),
    }
}

/// Writes a space and a name: as it stands where it is a word, and else as its JSON text.
fn push_name(alloc: Global, text: &mut String, name: &str) -> Result<(), AllocError>
    ensures { OnOk result (string_bytes text.new ≡ string_bytes text.old ++ spaced_name name.now) }
{
    text.push_str(" ")?;
    if is_word(name.as_bytes()) {
        return text.push_str(name);
    }
    let json = Json::try_from_str(alloc, name)?;
    text.push_str(json.to_string(alloc)?.as_str())
}

/// Writes each name behind a space.
fn push_names(alloc: Global, text: &mut String, names: &[String]) -> Result<(), AllocError>
    ensures { OnOk result (string_bytes text.new ≡ string_bytes text.old
        ++ flat_map spaced_name (map string_bytes names.now)) }
{
    for name in names {
        push_name(alloc, text, name.as_str())?;
    }
    Ok(())
}

/// Writes which names were read over, where there are such.
fn push_ignored(alloc: Global, text: &mut String, names: &[String]) -> Result<(), AllocError>
    ensures { OnOk result (string_bytes text.new ≡ string_bytes text.old
        ++ ignored_text (map string_bytes names.now)) }
{
    if names.is_empty() {
        return Ok(());
    }
    text.push_str(" ignored")?;
    push_names(alloc, text, names)
}

/// The line of a file that was loaded.
fn loaded_line(alloc: Global, names: &[String]) -> Result<String, AllocError>
    ensures { IfOk result (λ t. string_bytes t ≡ reply_text false (loaded (map string_bytes names.now))) }
{
    let mut text = String::from_str(alloc, "ok")?;
    push_ignored(alloc, &mut text, names)?;
    text.push_str("\n")?;
    Ok(text)
}

/// The lines of the rounds and the exclusions of an object.
fn history_lines(
    alloc: Global,
    rounds: &[Round],
    excluded: &[Excluded],
    names: &Names,
) -> Result<String, AllocError>
    ensures { IfOk result (λ t. string_bytes t ≡ reply_text false (tells
        (record { rounds = map round_seen rounds.now; names = names_seen names.now }) excluded.now)) }
{
    let mut text = String::new(alloc);
    push_counted(&mut text, "rounds", rounds, names)?;
    push_exclusions(&mut text, names, excluded)?;
    Ok(text)
}

/// The lines of a refusal, with what is said beside it.
fn refused_lines(
    alloc: Global,
    why: &Refusal,
    told: bool,
    rounds: &[Round],
    barred: &[(RuleId, Bar)],
    table: &Option<Table>,
    names: &Names,
) -> Result<String, AllocError>
    ensures { (trace always : Bool) → told ≡ (trace || always) →
        IfOk result (λ t. string_bytes t ≡ reply_text trace (refused why.now
        (remarks always (map round_seen rounds.now) barred.now table.now (names_seen names.now)))) }
{
    let mut text = String::from_str(alloc, "no ")?;
    push_refusal(&mut text, why)?;
    text.push_str("\n")?;
    push_remarks(&mut text, told, rounds, barred, table, names)?;
    Ok(text)
}

/// The reply's lines as a text.
fn reply_lines(alloc: Global, r: &Reply, trace: bool) -> Result<String, AllocError>
    ensures { IfOk result (λ t. string_bytes t ≡ reply_text trace (seen r.now)) }
{
    match r {
        Reply::Done { rounds, names } => {
            let mut text = String::from_str(alloc, "ok\n")?;
            push_told(&mut text, trace, rounds, names)?;
            Ok(text)
        }
        Reply::Origin(origin) => String::from_str(alloc, origin_line(*origin)),
        Reply::Loaded { ignored } => loaded_line(alloc, ignored),
        Reply::Undef => String::from_str(alloc, "undef\n"),
        Reply::Held { of, held, programs } => object_lines(alloc, *of, held, programs),
        Reply::Evidence { excluded, names } => evidence_lines(alloc, names, excluded),
        Reply::Value {
            name,
            of,
            prop,
            value,
            rounds,
            names,
        } => {
            let mut text = String::from_str(alloc, name)?;
            push_shown(alloc, &mut text, *of, *prop, value)?;
            push_told(&mut text, trace, rounds, names)?;
            Ok(text)
        }
        Reply::Ensured { rounds, names } => {
            let mut text = String::new(alloc);
            push_counted(&mut text, "ok", rounds, names)?;
            Ok(text)
        }
        Reply::Explained {
            chain,
            weight,
            table,
            names,
        } => {
            let mut text = String::new(alloc);
            push_plan(&mut text, chain, *weight, table, names)?;
            Ok(text)
        }
        Reply::History {
            rounds,
            excluded,
            names,
        } => history_lines(alloc, rounds, excluded, names),
        Reply::Rules { count, text: book } => {
            let mut text = String::new(alloc);
            push_rules(&mut text, *count, book)?;
            Ok(text)
        }
        Reply::Refused {
            why,
            ensured,
            rounds,
            barred,
            table,
            names,
        } => {
            let told = is_told(trace, *ensured);
            refused_lines(alloc, why, told, rounds, barred, table, names)
        }
    }
}

/// The reply's lines, each with its LF. Rounds that found a value are written where they are traced.
pub fn reply_bytes(alloc: Global, r: &Reply, trace: bool) -> Result<Vec<u8>, AllocError>
    ensures { IfOk result (λ b. b.items ≡ reply_text trace (seen r.now)) }
{
    let text = reply_lines(alloc, r, trace)?;
    Ok(text.into_bytes())
}
