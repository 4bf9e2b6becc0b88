// Look-ups of properties by their names.

ghost use Rattle.std.specs.Prelude.{◌≡◌, ◌↔◌, Some, IsTrue};
ghost use Rattle.pm_props.specs.Properties.{has, has_program, name_in};
ghost use Rattle.pm_props.specs.Names.{IsNameOf, is_name, is_program_name, program_name, property_named, property_named_in, program_named};

use crate::property::PropId;
use pm_object_type::ObjectType;

impl PropId {
    /// The property with this name: any of its names, in the tables of polytopes, cones, fans or programs.
    pub fn named(text: &str) -> Option<PropId>
        ensures exact { (p : PropId) → (result ≡ Some p) ↔ IsNameOf text.now p }
        ensures value { result ≡ property_named text.now }
    {
        PropId::named_by(text.as_bytes())
    }

    /// The property with this name, given as bytes.
    pub fn named_by(text: &[u8]) -> Option<PropId>
        ensures exact { (p : PropId) → (result ≡ Some p) ↔ IsNameOf text.now p }
        ensures value { result ≡ property_named text.now }
    {
        find_named(text)
    }

    /// The property with this name in the table of the type.
    pub fn named_in(of: ObjectType, text: &str) -> Option<PropId>
        ensures exact { (p : PropId) → (result ≡ Some p) ↔ (IsTrue (has of p) × (text.now ≡ name_in of p)) }
        ensures value { result ≡ property_named_in of text.now }
    {
        find_named_in(of, text)
    }

    /// The property of linear programs with this name, which lacks `LP.`.
    pub fn program_named(text: &str) -> Option<PropId>
        ensures exact { (p : PropId) → (result ≡ Some p)
            ↔ (IsTrue (has_program p) × (text.now ≡ program_name p)) }
        ensures value { result ≡ program_named text.now }
    {
        find_program(text)
    }

    /// The property's name in the table of a type.
    pub fn name_in(self, of: ObjectType) -> &'static str
        ensures { result.now ≡ name_in of self }
    {
        let row = self.row();
        match of {
            ObjectType::Polytope => row.first_name,
            ObjectType::Cone => row.cone_name,
            ObjectType::Fan => row.fan_name,
        }
    }

    // Whether this is one of the property's names.
    fn is_name(self, text: &[u8]) -> bool
        ensures { result ≡ is_name text.now self }
    {
        let row = self.row();
        text == row.first_name.as_bytes()
            || text == row.cone_name.as_bytes()
            || text == row.fan_name.as_bytes()
    }

    // Whether it is a property of linear programs, and this is its name without `LP.`.
    fn is_program_name(self, text: &[u8]) -> bool
        ensures { result ≡ is_program_name text.now self }
    {
        self.is_of_programs() && text == &self.row().first_name.as_bytes()[3..]
    }
}

// The first property with this name.
fn find_named(text: &[u8]) -> Option<PropId>
    ensures { result ≡ property_named text.now }
{
    PropId::every().iter().copied().find(|p| p.is_name(text))
}

// The first property with this name in the table of the type.
fn find_named_in(of: ObjectType, text: &str) -> Option<PropId>
    ensures { result ≡ property_named_in of text.now }
{
    PropId::every()
        .iter()
        .copied()
        .find(|p| p.is_in(of) && text == p.name_in(of))
}

// The first property of linear programs with this name.
fn find_program(text: &str) -> Option<PropId>
    ensures { result ≡ program_named text.now }
{
    PropId::every()
        .iter()
        .copied()
        .find(|p| p.is_program_name(text.as_bytes()))
}
