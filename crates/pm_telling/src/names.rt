// Names of rules and programs, and the history of an object.

ghost use Rattle.pm_script.specs.Replies.{names_seen, seen, tells};
ghost use Rattle.pm_telling.specs.Telling.{named_rounds, names_told, rules_told};
ghost use Rattle.std.specs.Prelude.{IfOk, ◌≡◌};

use pm_object::{Object, copy_excluded, copy_rounds};
use pm_rules::{Book, Rule};
use pm_script::{Names, Reply};
use std::alloc::{AllocError, Global};

/// The label and the weight of each rule.
pub fn rule_names(alloc: Global, rules: &[Rule]) -> Result<Names, AllocError>
    ensures { IfOk result (λ n. names_seen n ≡ rules_told rules.now) }
{
    let mut labels = Vec::with_capacity(alloc, rules.len())?;
    for rule in rules {
        labels.push((rule.label, rule.weight))?;
    }
    Ok(Names {
        rules: labels,
        subs: Vec::new(alloc),
    })
}

/// The label and the weight of each rule, and the names of the object's programs.
pub fn names_told(alloc: Global, rules: &[Rule], object: &Object) -> Result<Names, AllocError>
    ensures { IfOk result (λ n. names_seen n ≡ names_told rules.now object.now.state) }
{
    let mut names = rule_names(alloc, rules)?;
    for place in 0..object.programs() {
        let name = object.program_name(place);
        names.subs.push(String::from_str(alloc, name)?)?;
    }
    Ok(names)
}

/// The rounds and the exclusions of the object.
pub fn tell_history(alloc: Global, object: &Object, book: &Book) -> Result<Reply, AllocError>
    ensures { IfOk result (λ r. seen r
        ≡ tells (named_rounds book.now object.now.state object.now.state.rounds) object.now.state.excluded) }
{
    Ok(Reply::History {
        rounds: copy_rounds(alloc, object.rounds())?,
        excluded: copy_excluded(alloc, object.excluded())?,
        names: names_told(alloc, book.rules(), object)?,
    })
}
