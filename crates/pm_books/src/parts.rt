// The parts of rules: names, preconditions, labels, clients and weights.

ghost use Rattle.std.specs.Prelude.{◌≡◌, ◌<◌, true, map, length, IfNone, IfSome};
ghost use Rattle.pm_books.specs.Seen.{seen, seen_rest, conditions_seen};
ghost use Rattle.pm_props.specs.Properties.{value_kind};
ghost use Rattle.pm_books.specs.Gives.{IsReadingOf, IsBehindComma, HasNoComma, EndsBefore, HasCondition};
ghost use Rattle.pm_books.specs.Reading.{after, name_of, names_from, is_comma, is_not, is_truth, with_condition, condition_of, conditions_from, no_conditions};
ghost use Rattle.pm_books.specs.Reading.Due.{condition};

use crate::fail::BookFail;
use crate::token::Token;
use pm_props::{PropId, PropSet, ValueKind};
use pm_rules::is_word;

/// What comes behind a token with this text.
#[tactic(auto, unfolding(crate::specs::Reading::token_where, crate::specs::Reading::after))]
pub fn after<'t, 'a>(
    text: &[u8],
    end: usize,
    tokens: &'t [Token<'a>],
) -> Result<&'t [Token<'a>], BookFail>
    ensures { IsReadingOf seen_rest result (after text.now end (map seen tokens.now)) }
{
    let Some((first, rest)) = tokens.split_first() else {
        return Err(BookFail::Syntax(end));
    };
    if first.text == text {
        Ok(rest)
    } else {
        Err(BookFail::Syntax(first.place))
    }
}

// The property that a token names, which is not in the set.
#[tactic(auto, unfolding(crate::specs::Reading::name_of))]
fn name_of(set: PropSet, token: &Token) -> Result<PropId, BookFail>
    ensures { IsReadingOf (λ p. p) result (name_of set (seen token.now)) }
{
    if !is_word(token.text) {
        return Err(BookFail::Syntax(token.place));
    }
    match PropId::named_by(token.text) {
        None => Err(BookFail::UnknownProperty(token.place)),
        Some(p) => {
            if set.contains(p) {
                Err(BookFail::Syntax(token.place))
            } else {
                Ok(p)
            }
        }
    }
}

// Whether the token is a comma.
fn is_comma(token: &Token) -> bool
    ensures { result ≡ is_comma (seen token.now) }
{
    token.text == ",".as_bytes()
}

// Whether the token is `!`.
fn is_not(token: &Token) -> bool
    ensures { result ≡ is_not (seen token.now) }
{
    token.text == "!".as_bytes()
}

// What comes behind a comma, if there is one.
fn behind_comma<'t, 'a>(tokens: &'t [Token<'a>]) -> Option<&'t [Token<'a>]>
    ensures none { IfNone result (HasNoComma (map seen tokens.now)) }
    ensures some { IfSome result (λ rest. IsBehindComma (map seen tokens.now) (seen_rest rest)) }
    ensures shorter { IfSome result (λ rest. length rest.now < length tokens.now) }
{
    let (first, rest) = tokens.split_first()?;
    if is_comma(first) { Some(rest) } else { None }
}

/// One name or more, with commas between them.
pub fn names<'t, 'a>(
    end: usize,
    tokens: &'t [Token<'a>],
) -> Result<(PropSet, &'t [Token<'a>]), BookFail>
    ensures { IsReadingOf (λ x. (x.0, seen_rest x.1)) result (names_from true 0 end (map seen tokens.now)) }
{
    names_beside(PropSet::empty(), end, tokens)
}

// Names that are not in the set, added to it. There are at most as many as properties, and so many calls.
fn names_beside<'t, 'a>(
    set: PropSet,
    end: usize,
    tokens: &'t [Token<'a>],
) -> Result<(PropSet, &'t [Token<'a>]), BookFail>
    ensures { IsReadingOf (λ x. (x.0, seen_rest x.1)) result (names_from true set end (map seen tokens.now)) }
{
    let Some((first, behind)) = tokens.split_first() else {
        return Err(BookFail::Syntax(end));
    };
    let p = name_of(set, first)?;
    let more = set.with(p);
    match behind_comma(behind) {
        None => Ok((more, behind)),
        Some(next) => names_beside(more, end, next),
    }
}

/// What must be true and what must be false.
#[derive(Clone, Copy)]
pub struct Conditions {
    /// What must be true.
    pub must: PropSet,
    /// What must be false.
    pub must_not: PropSet,
}

// Whether the property is true or false.
fn is_truth(p: PropId) -> bool
    ensures { result ≡ is_truth (value_kind p) }
{
    match p.row().kind {
        ValueKind::Bool => true,
        ValueKind::Mat => false,
        ValueKind::Sets => false,
        ValueKind::Int => false,
        ValueKind::Number => false,
        ValueKind::Edges => false,
        ValueKind::Lattice => false,
        ValueKind::Counts => false,
    }
}

impl Conditions {
    // The property that a token names, which is true or false and in none of the sets.
    #[tactic(auto, unfolding(crate::specs::Reading::condition_of))]
    fn condition_of(&self, token: &Token) -> Result<PropId, BookFail>
        ensures { IsReadingOf (λ p. p) result (condition_of (conditions_seen self.now) (seen token.now)) }
    {
        let p = name_of(self.must.union(self.must_not), token)?;
        if is_truth(p) {
            Ok(p)
        } else {
            Err(BookFail::Syntax(token.place))
        }
    }

    // With one condition more.
    fn with(&self, negated: bool, p: PropId) -> Conditions
        ensures { conditions_seen result ≡ with_condition (conditions_seen self.now) negated p }
    {
        if negated {
            Conditions {
                must: self.must,
                must_not: self.must_not.with(p),
            }
        } else {
            Conditions {
                must: self.must.with(p),
                must_not: self.must_not,
            }
        }
    }
}

// Whether the next condition is negated, its name, and what comes behind it; none where the tokens end before the
// name.
#[tactic(auto, unfolding(crate::specs::Reading::conditions_from))]
fn next_condition<'t, 'a>(tokens: &'t [Token<'a>]) -> Option<(bool, &'t Token<'a>, &'t [Token<'a>])>
    ensures none { IfNone result (EndsBefore (map seen tokens.now)) }
    ensures some { IfSome result (λ x.
        HasCondition (map seen tokens.now) x.0 (seen x.1.now) (seen_rest x.2)) }
    ensures shorter { IfSome result (λ x. length x.2.now < length tokens.now) }
{
    let Some((first, behind)) = tokens.split_first() else {
        return None;
    };
    if !is_not(first) {
        return Some((false, first, behind));
    }
    match behind.split_first() {
        None => None,
        Some((second, rest)) => Some((true, second, rest)),
    }
}

/// One condition or more, with commas between them.
pub fn all_conditions<'t, 'a>(
    end: usize,
    tokens: &'t [Token<'a>],
) -> Result<(Conditions, &'t [Token<'a>]), BookFail>
    ensures { IsReadingOf (λ x. (conditions_seen x.0, seen_rest x.1)) result
        (conditions_from condition no_conditions end (map seen tokens.now)) }
{
    let none = Conditions {
        must: PropSet::empty(),
        must_not: PropSet::empty(),
    };
    none.and_more(end, tokens)
}

impl Conditions {
    // Conditions of other properties, added to these. There are at most as many as properties, and so many calls.
    fn and_more<'t, 'a>(
        self,
        end: usize,
        tokens: &'t [Token<'a>],
    ) -> Result<(Conditions, &'t [Token<'a>]), BookFail>
        ensures { IsReadingOf (λ x. (conditions_seen x.0, seen_rest x.1)) result
            (conditions_from condition (conditions_seen self) end (map seen tokens.now)) }
    {
        let Some((negated, token, behind)) = next_condition(tokens) else {
            return Err(BookFail::Syntax(end));
        };
        let p = self.condition_of(token)?;
        let more = self.with(negated, p);
        match behind_comma(behind) {
            None => Ok((more, behind)),
            Some(next) => more.and_more(end, next),
        }
    }
}
