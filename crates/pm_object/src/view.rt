// What a client may read of an object.

ghost use Rattle.pm_object.specs.Reading.{IsView, IsViewed, fact_of, view_for};
ghost use Rattle.pm_types.specs.Forms.{FormsIn};
ghost use Rattle.pm_props.specs.Sets.{has};
ghost use Rattle.pm_types.specs.Views.{view_of};
ghost use Rattle.std.specs.Option.{option_map};
ghost use Rattle.std.specs.Prelude.{IfSome, IsSome, IsTrue, ◌≡◌, ◌↔◌};

use crate::object::Object;
use pm_types::{Kind, ObjectType, PropId, Value};
use std::marker::Model;

/// What a client of a kind may read of an object: its type, its column count n, and the values of the kind's sources.
#[derive(Drop)]
pub struct View<'a> {
    object: &'a Object,
    sub: Option<u8>,
    kind: Kind,
    cols: usize,
}

impl<'a> Model for View<'a> {
    ghost use Rattle.pm_object.specs.Reading.{IsView, IsViewed, ViewSeen, view_for};

    ghost Value = { ViewSeen };

    ghost view = { λ v. view_for v.object.now.state v.sub v.kind v.cols };

    ghost invariant = { λ v. IsViewed v.object.now.state v.sub v.kind v.cols × IsView (view_for v.object.now.state v.sub v.kind v.cols) };
}

impl<'a> View<'a> {
    // The view of an object of n columns that holds the sources.
    pub(crate) fn new(object: &'a Object, sub: Option<u8>, kind: Kind, cols: usize) -> View<'a>
        requires viewed { IsViewed object.now.state sub kind cols }
        requires view { IsView (view_for object.now.state sub kind cols) }
        ensures { result ≡ view_for object.now.state sub kind cols }
    {
        View {
            object,
            sub,
            kind,
            cols,
        }
    }

    /// The object's type.
    pub fn of(&self) -> ObjectType
        ensures value { result ≡ self.now.of }
        ensures view { IsView self.now }
    {
        self.object.of()
    }

    /// The column count n, from 1 to 33.
    pub fn cols(&self) -> usize
        ensures value { result ≡ self.now.cols }
        ensures view { IsView self.now }
    {
        self.cols
    }

    /// The client's kind.
    pub fn kind(&self) -> Kind
        ensures { result ≡ self.now.kind }
    {
        self.kind
    }

    /// The value of a property; Some exactly for the sources.
    pub fn value(&self, p: PropId) -> Option<&Value>
        ensures value { option_map (λ v. view_of v.now) result ≡ fact_of p self.now.facts }
        ensures source { IsSome result ↔ IsTrue (has self.now.kind.sources p) }
        ensures forms { IfSome result (λ v. FormsIn self.now.of self.now.cols p (view_of v.now)) }
    {
        if self.kind.sources.contains(p) {
            self.object.lookup(self.sub, p)
        } else {
            None
        }
    }
}
