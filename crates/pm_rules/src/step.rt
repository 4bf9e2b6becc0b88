// What a rule asks of the names held.

ghost use Rattle.std.specs.Prelude.{◌≡◌, ◌↔◌, ◌&&◌, IsTrue, false, filter};
ghost use Rattle.pm_props.specs.Sets.{set_of};
ghost use Rattle.pm_props.specs.Kinds.{names_of};
ghost use Rattle.pm_rules.specs.Rules.{conditions, inputs, names_of_rule, is_barred, IsInUse, IsEnabled};
ghost use Rattle.pm_rules.specs.Steps.{tag_test, some_has, some_program, is_fresh, is_fresh_somewhere, has_some_tag, blocked, step_of, IsReady, IsOpen};

use crate::rule::Rule;
use pm_props::{Kind, PropId, PropSet, RuleId};

/// What a property may speak of, beside the thing itself.
#[derive(Clone, Copy, PartialEq, Eq)]
pub enum Tag {
    /// The order of the extreme rays.
    Rays,
    /// The order of the facets or maximal cones.
    Facets,
    /// Half of the pair POINTS with INPUT_LINEALITY.
    Generators,
    /// Half of the pair INEQUALITIES with EQUATIONS.
    HalfSpaces,
}

/// What a rule asks of the names held, as sets.
#[derive(Clone, Copy, PartialEq, Eq)]
pub struct Step {
    /// What it finds; some of this must be missing.
    pub targets: PropSet,
    /// What it reads: its sources and precondition names.
    pub inputs: PropSet,
    /// What may not be held: all that has a tag in which its kind is fresh.
    pub blocked: PropSet,
}

impl Tag {
    /// Whether the property has the tag.
    pub fn is_of(self, p: PropId) -> bool
        ensures { result ≡ tag_test self p }
    {
        match self {
            Tag::Rays => p.row().speaks_of_rays,
            Tag::Facets => p.row().speaks_of_facets,
            Tag::Generators => p.is_of_generators(),
            Tag::HalfSpaces => p.is_of_half_spaces(),
        }
    }

    /// Whether a property of the set has the tag.
    pub fn is_in(self, set: PropSet) -> bool
        ensures { result ≡ some_has self set }
    {
        let mut rest = set;
        'look: loop {
            let Some(p) = rest.first() else {
                return false;
            };
            if self.is_of(p) {
                return true;
            }
            rest = rest.without(p);
        }
    }
}

impl Step {
    /// Whether the rule can be applied to these names: what it reads is held, nothing is held that may not be, and
    /// some target is missing.
    pub fn is_open(self, held: PropSet) -> bool
        ensures { IsTrue result ↔ IsOpen self held }
    {
        self.is_ready(held) && !self.targets.is_subset(held)
    }

    // Whether what the rule reads is held, and nothing is held that may not be.
    fn is_ready(&self, held: PropSet) -> bool
        ensures { IsTrue result ↔ IsReady self.now held }
    {
        self.inputs.is_subset(held) && self.blocked.intersection(held).is_empty()
    }
}

impl Rule {
    /// The precondition names.
    pub fn conditions(&self) -> PropSet
        ensures { result ≡ conditions self.now }
    {
        self.must.union(self.must_not)
    }

    /// What the rule reads: its sources and precondition names.
    pub fn inputs(&self) -> PropSet
        ensures { result ≡ inputs self.now }
    {
        self.kind.sources.union(self.conditions())
    }

    /// All names of the rule.
    pub fn names(&self) -> PropSet
        ensures { result ≡ names_of_rule self.now }
    {
        self.kind.targets.union(self.inputs())
    }

    /// What the rule asks of the names held.
    pub fn step(&self) -> Step
        ensures { result ≡ step_of self.now }
    {
        Step {
            targets: self.kind.targets,
            inputs: self.inputs(),
            blocked: blocked(&self.kind),
        }
    }

    /// Whether the rule is in use where these names are: all its names are among them, unless its kind has a name of
    /// linear programs and is fresh in a tag.
    pub fn is_in_use(&self, names: PropSet) -> bool
        ensures { IsTrue result ↔ IsInUse names self.now }
    {
        self.names().is_subset(names) && !is_fresh_with_programs(&self.kind)
    }

    /// Whether the rule of this number is in use where these names are, and not barred.
    pub fn may_be_used(&self, names: PropSet, barred: &[RuleId], id: RuleId) -> bool
        ensures { IsTrue result ↔ (IsInUse names self.now × (is_barred barred.now id ≡ false)) }
    {
        self.is_in_use(names) && !is_barred(barred, id)
    }

    /// Whether the rule of this number may be applied to the names held.
    pub fn is_enabled(&self, names: PropSet, barred: &[RuleId], held: PropSet, id: RuleId) -> bool
        ensures { IsTrue result ↔ IsEnabled names barred.now held id self.now }
    {
        self.may_be_used(names, barred, id) && self.step().is_open(held)
    }
}

/// Whether the rule of this number is among the barred ones.
pub fn is_barred(barred: &[RuleId], id: RuleId) -> bool
    ensures { result ≡ is_barred barred.now id }
{
    barred.iter().any(|other| other.0 == id.0)
}

// Whether some target has the tag and no source has it.
fn is_fresh(tag: Tag, kind: &Kind) -> bool
    ensures { result ≡ is_fresh tag kind.now }
{
    tag.is_in(kind.targets) && !tag.is_in(kind.sources)
}

// Whether the kind is fresh in one of the tags.
fn is_fresh_somewhere(kind: &Kind) -> bool
    ensures { result ≡ is_fresh_somewhere kind.now }
{
    is_fresh(Tag::Rays, kind)
        || is_fresh(Tag::Facets, kind)
        || is_fresh(Tag::Generators, kind)
        || is_fresh(Tag::HalfSpaces, kind)
}

// Whether the kind has a name of linear programs and is fresh in a tag.
fn is_fresh_with_programs(kind: &Kind) -> bool
    ensures { result ≡ (some_program (names_of kind.now) && is_fresh_somewhere kind.now) }
{
    has_programs(kind.names()) && is_fresh_somewhere(kind)
}

/// Whether a property of the set is one of linear programs.
pub fn has_programs(set: PropSet) -> bool
    ensures { result ≡ some_program set }
{
    let mut rest = set;
    'look: loop {
        let Some(p) = rest.first() else {
            return false;
        };
        if p.is_of_programs() {
            return true;
        }
        rest = rest.without(p);
    }
}

// Some of the tags.
#[derive(Clone, Copy)]
struct Tags {
    rays: bool,
    facets: bool,
    generators: bool,
    half_spaces: bool,
}

impl Tags {
    // Whether the property has one of them.
    fn are_of(self, p: PropId) -> bool
        ensures { result ≡ has_some_tag self.rays self.facets self.generators self.half_spaces p }
    {
        (self.rays && p.row().speaks_of_rays)
            || (self.facets && p.row().speaks_of_facets)
            || (self.generators && p.is_of_generators())
            || (self.half_spaces && p.is_of_half_spaces())
    }

    // Those of the properties that have one of them.
    fn among(self, list: &[PropId]) -> PropSet
        ensures { result
            ≡ set_of (filter
            (has_some_tag self.rays self.facets self.generators self.half_spaces) list.now) }
    {
        let mut set = PropSet::empty();
        for p in list {
            if self.are_of(*p) {
                set = set.with(*p);
            }
        }
        set
    }
}

// All properties that have a tag in which the kind is fresh.
#[tactic(auto, unfolding(crate::specs::Steps::blocked))]
fn blocked(kind: &Kind) -> PropSet
    ensures { result ≡ blocked kind.now }
{
    let fresh = Tags {
        rays: is_fresh(Tag::Rays, kind),
        facets: is_fresh(Tag::Facets, kind),
        generators: is_fresh(Tag::Generators, kind),
        half_spaces: is_fresh(Tag::HalfSpaces, kind),
    };
    fresh.among(&PropId::every())
}
