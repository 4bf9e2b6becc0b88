// What rules ask of the names held, by the sets of the properties that have a tag, which are found once for all rules.

ghost use Rattle.std.specs.Prelude.{◌≡◌, filter, if◌then◌else◌};
ghost use Rattle.pm_props.specs.Properties.{every_property};
ghost use Rattle.pm_props.specs.Sets.{set_of};
ghost use Rattle.pm_rules.specs.Steps.{blocked, is_fresh, some_has, step_of, tag_test};
ghost use Rattle.pm_rules.specs.declared.step.Tag.TheVariants.{Facets, Generators, HalfSpaces, Rays};

use pm_rules::{Kind, PropId, PropSet, Rule, Step, Tag};

/// The properties that have each of the tags.
#[derive(Clone, Copy)]
pub struct TagSets {
    rays: PropSet,
    facets: PropSet,
    generators: PropSet,
    half_spaces: PropSet,
    ghost of_rays: { rays ≡ set_of (filter (tag_test Rays) every_property) },
    ghost of_facets: { facets ≡ set_of (filter (tag_test Facets) every_property) },
    ghost of_generators: { generators ≡ set_of (filter (tag_test Generators) every_property) },
    ghost of_half_spaces: { half_spaces ≡ set_of (filter (tag_test HalfSpaces) every_property) },
}

// Those of the properties that have the tag.
fn among(tag: Tag, list: &[PropId]) -> PropSet
    ensures { result ≡ set_of (filter (tag_test tag) list.now) }
{
    let mut set = PropSet::empty();
    for p in list {
        if tag.is_of(*p) {
            set = set.with(*p);
        }
    }
    set
}

impl TagSets {
    /// The properties that have each of the tags.
    pub fn new() -> TagSets {
        let every = PropId::every();
        TagSets {
            rays: among(Tag::Rays, &every),
            facets: among(Tag::Facets, &every),
            generators: among(Tag::Generators, &every),
            half_spaces: among(Tag::HalfSpaces, &every),
        }
    }

    // All that have the tag.
    fn tagged(&self, tag: Tag) -> PropSet
        ensures { result ≡ set_of (filter (tag_test tag) every_property) }
    {
        match tag {
            Tag::Rays => self.rays,
            Tag::Facets => self.facets,
            Tag::Generators => self.generators,
            Tag::HalfSpaces => self.half_spaces,
        }
    }

    // Whether a property of the set has the tag.
    fn is_in(&self, tag: Tag, set: PropSet) -> bool
        ensures { result ≡ some_has tag set }
    {
        !set.intersection(self.tagged(tag)).is_empty()
    }

    // Whether some target has the tag and no source has it.
    fn is_fresh(&self, tag: Tag, kind: &Kind) -> bool
        ensures { result ≡ is_fresh tag kind.now }
    {
        self.is_in(tag, kind.targets) && !self.is_in(tag, kind.sources)
    }

    // All that have the tag, where the kind is fresh in it.
    fn blocked_by(&self, tag: Tag, kind: &Kind) -> PropSet
        ensures { result
            ≡ (if is_fresh tag kind.now then set_of (filter (tag_test tag) every_property) else 0) }
    {
        if self.is_fresh(tag, kind) {
            self.tagged(tag)
        } else {
            PropSet::empty()
        }
    }

    // All properties that have a tag in which the kind is fresh.
    fn blocked(&self, kind: &Kind) -> PropSet
        ensures { result ≡ blocked kind.now }
    {
        let rays = self.blocked_by(Tag::Rays, kind);
        let facets = self.blocked_by(Tag::Facets, kind);
        let generators = self.blocked_by(Tag::Generators, kind);
        let half_spaces = self.blocked_by(Tag::HalfSpaces, kind);
        rays.union(facets.union(generators.union(half_spaces)))
    }

    /// What the rule asks of the names held.
    pub fn step(&self, rule: &Rule) -> Step
        ensures { result ≡ step_of rule.now }
    {
        Step {
            targets: rule.kind.targets,
            inputs: rule.inputs(),
            blocked: self.blocked(&rule.kind),
        }
    }
}
