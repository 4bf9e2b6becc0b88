// The types of objects.

/// What an object describes: a polytope, a cone or a fan.
#[derive(Clone, Copy, Debug, PartialEq, Eq, PartialOrd, Ord, Hash)]
pub enum ObjectType {
    Polytope,
    Cone,
    Fan,
}
