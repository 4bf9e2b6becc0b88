// The calls of an object.

ghost use Rattle.pm_types.specs.Values.{whole};
ghost use Rattle.pm_props.specs.declared.property.PropId.TheVariants.{ConeAmbientDim};
ghost use Rattle.pm_object.specs.State.{CanTake, CannotTake, given_at, has_rounds_at, holds_computed_at, is_given, is_given_at, is_sealed_at, place_from, place_named, program_refusal, with_program, agrees, ambient_in, cols_of, empty_object, is_disabled, file_value, has_rounds, holds_stored, is_held, is_sealed, names_of, names_to_settle, read_at, settling, sites_agree, settling_names, value_of, with_disabled, with_excluded, with_held, with_round};
ghost use Rattle.pm_types.specs.Forms.{HavePrimitiveRows, are_rows, is_formed};
ghost use Rattle.pm_object.specs.Formed.{IsBacked, IsFormed, IsFormedIn, is_numbered};
ghost use Rattle.pm_props.specs.Properties.{has as has_property};
ghost use Rattle.pm_object.specs.Views.{held_seen, round_seen};
ghost use Rattle.pm_object.specs.Laws.{computed_at};
ghost use Rattle.pm_object.specs.declared.held.Origin.TheVariants.{Given, Stored};
ghost use Rattle.pm_props.specs.NameWords.{is_name};
ghost use Rattle.pm_props.specs.Places.{place_of, same_place};
ghost use Rattle.pm_types.specs.Views.{view_of};
ghost use Rattle.pm_object.specs.Reading.{view_for};
ghost use Rattle.pm_props.specs.Kinds.{IsKindOf};
ghost use Rattle.pm_props.specs.Sets.{has};
ghost use Rattle.pm_props.specs.declared.property.PropId.{PropId};
ghost use Rattle.std.specs.Option.{is_some, option_map, unwrap_or};
ghost use Rattle.std.specs.Prelude.{IfErr, IfOk, IfSome, IsTrue, false, if◌then◌else◌, None, OnErr, OnOk, Some, [], length, map, not, slice_get, string_bytes, ◌&&◌, ◌+◌, ◌<◌, ◌≤◌, ◌^◌, ◌∷◌, ◌≡◌, ◌≢◌};

use crate::copies::{copy_excluded, copy_held, copy_labels, copy_rounds};
use crate::held::{Excluded, Held, Origin, ProgramFail, Round, TakeFail};
use crate::settled::{push_if, settled_values};
use crate::tests_of_values::{agrees, first_cols, require_primitive_rows, sites_agree};
use crate::view::View;
use pm_limits::MOST_PROGRAMS;
use pm_types::{Kind, ObjectType, PropId, PropSet, Value, are_rows, reads_entries};
use std::alloc::{AllocError, Global};
use std::marker::Model;

/// The greatest number of linear programs of an object.
const PROGRAM_LIMIT: u8 = MOST_PROGRAMS as u8;

/// An object: a polytope, cone or fan with what is known of it.
#[derive(Drop)]
pub struct Object {
    of: ObjectType,
    held: Vec<Held>,
    excluded: Vec<Excluded>,
    rounds: Vec<Round>,
    disabled: Vec<String>,
    programs: Vec<String>,
}

impl Model for Object {
    ghost use Rattle.pm_object.specs.Formed.{IsFormed};
    ghost use Rattle.pm_object.specs.State.{ObjectSeen};
    ghost use Rattle.pm_object.specs.Views.{held_seen, round_seen};
    ghost use Rattle.std.specs.Prelude.{map, string_bytes, vec_capacity, vec_len, ◌-◌};

    ghost Value = { ObjectSeen };

    ghost view = { λ o. record {
      state = record { of = o.of; held = map held_seen o.held.items; excluded = o.excluded.items; rounds = map round_seen o.rounds.items; disabled = map string_bytes o.disabled.items; programs = map string_bytes o.programs.items };
      spare = vec_capacity o.held - vec_len o.held;
    } };

    ghost invariant = { λ o. IsFormed (record { of = o.of; held = map held_seen o.held.items; excluded = o.excluded.items; rounds = map round_seen o.rounds.items; disabled = map string_bytes o.disabled.items; programs = map string_bytes o.programs.items }) };
}

impl Object {
    /// An object of this type that holds nothing.
    pub fn new(alloc: Global, of: ObjectType) -> Object
        ensures state { result.state ≡ empty_object of }
        ensures spare { result.spare ≡ 0 }
    {
        Object {
            of,
            held: Vec::new(alloc),
            excluded: Vec::new(alloc),
            rounds: Vec::new(alloc),
            disabled: Vec::new(alloc),
            programs: Vec::new(alloc),
        }
    }

    /// The object's type.
    pub fn of(&self) -> ObjectType
        ensures value { result ≡ self.now.state.of }
        ensures formed { IsFormed self.now.state }
    {
        self.of
    }

    /// The values that it holds, in the order in which they came. They have their forms, and one column count.
    pub fn held(&self) -> &[Held]
        ensures value { map held_seen result.now ≡ self.now.state.held }
        ensures formed { IsFormed self.now.state }
    {
        &self.held
    }

    /// The rounds that were started for it.
    pub fn rounds(&self) -> &[Round]
        ensures { map round_seen result.now ≡ self.now.state.rounds }
    {
        &self.rounds
    }

    /// The rules that were excluded.
    pub fn excluded(&self) -> &[Excluded]
        ensures { result.now ≡ self.now.state.excluded }
    {
        &self.excluded
    }

    // Whether a round was started for it.
    fn has_rounds(&self) -> bool
        ensures { result ≡ has_rounds self.now.state }
    {
        !self.rounds.is_empty()
    }

    /// Whether a round was started for it, or it holds a stored value.
    pub fn is_sealed(&self) -> bool
        ensures { result ≡ is_sealed self.now.state }
    {
        self.has_rounds() || holds_stored(&self.held)
    }

    /// Whether the object is sealed, or the linear program at a place: it holds a computed value, or a round was
    /// started for it.
    pub fn is_sealed_at(&self, sub: Option<u8>) -> bool
        ensures { result ≡ is_sealed_at sub self.now.state }
    {
        match sub {
            None => self.is_sealed(),
            Some(place) => holds_computed(&self.held, place) || has_rounds_for(&self.rounds, place),
        }
    }

    /// How many linear programs the object has, at most four.
    pub fn programs(&self) -> u8
        ensures value { result ≡ length self.now.state.programs }
        ensures few { result ≤ 4 }
        ensures formed { IsFormed self.now.state }
    {
        self.programs.len() as u8
    }

    /// The name of the linear program at a place.
    pub fn program_name(&self, sub: u8) -> &str
        requires { sub < length self.now.state.programs }
        ensures { Some result.now ≡ slice_get self.now.state.programs sub }
    {
        self.programs[usize::from(sub)].as_str()
    }

    /// The place of the linear program of a name; None exactly where the object has no such program.
    pub fn program(&self, name: &str) -> Option<u8>
        ensures value { result ≡ place_named name.now self.now.state }
        ensures within { IfSome result (λ s. s < length self.now.state.programs) }
    {
        let place = place_of_name(&self.programs, name)?;
        Some(place as u8)
    }

    /// Adds a linear program without an objective, and answers its place, unless the first of these holds: the object
    /// is no polytope (`NotPolytope`), a program of it has the name (`NameTaken`), it has four (`Full`). Nothing
    /// changes where the answer is not Ok.
    pub fn add_program(&mut self, alloc: Global, name: &str) -> Result<u8, ProgramFail>
        requires name { IsTrue (is_name name.now) }
        ensures place { IfOk result (λ s. s ≡ length self.old.state.programs) }
        ensures ok { OnOk result (program_refusal self.old.state name.now ≡ None) }
        ensures added { OnOk result (self.new.state ≡ with_program self.old.state name.now) }
        ensures refused { IfErr result (λ e. e ≢ ProgramFail.Memory
            → program_refusal self.old.state name.now ≡ Some e) }
        ensures unchanged { OnErr result (self.new.state ≡ self.old.state) }
        ensures spare { self.new.spare ≡ self.old.spare }
    {
        self.may_add_program(name)?;
        let place = self.programs();
        let Ok(copy) = String::from_str(alloc, name) else {
            return Err(ProgramFail::Memory);
        };
        if self.programs.push(copy).is_err() {
            return Err(ProgramFail::Memory);
        }
        Ok(place)
    }

    // The first reason not to add a program of a name, if there is one.
    fn may_add_program(&self, name: &str) -> Result<(), ProgramFail>
        ensures ok { OnOk result (program_refusal self.now.state name.now ≡ None) }
        ensures refused { IfErr result (λ e. program_refusal self.now.state name.now ≡ Some e) }
    {
        if self.of != ObjectType::Polytope {
            return Err(ProgramFail::NotPolytope);
        }
        if self.program(name).is_some() {
            return Err(ProgramFail::NameTaken);
        }
        if self.programs() >= PROGRAM_LIMIT {
            return Err(ProgramFail::Full);
        }
        Ok(())
    }

    /// The value of a property that is read by who asks this program, if one is asked; None exactly where none is
    /// held.
    pub fn lookup(&self, sub: Option<u8>, p: PropId) -> Option<&Value>
        ensures value { option_map (λ v. view_of v.now) result
            ≡ value_of p (read_at sub self.now.state.held) }
        ensures formed { IsFormed self.now.state }
    {
        find_at(&self.held, sub, p)
    }

    /// Whether a property is held, for who asks this program, if one is asked.
    pub fn holds(&self, sub: Option<u8>, p: PropId) -> bool
        ensures { result ≡ is_held p (read_at sub self.now.state.held) }
    {
        self.lookup(sub, p).is_some()
    }

    // Whether a property of which the object itself has the only value is held.
    fn has(&self, p: PropId) -> bool
        ensures { result ≡ is_held p self.now.state.held }
    {
        find(&self.held, p).is_some()
    }

    /// The names that are held, for who asks this program, if one is asked.
    pub fn names(&self, sub: Option<u8>) -> PropSet
        ensures value { result ≡ names_of (read_at sub self.now.state.held) }
        ensures members { (p : PropId) → has result p ≡ is_held p (read_at sub self.now.state.held) }
    {
        names_of(&self.held, sub)
    }

    /// The column count n; None exactly where it is unknown.
    pub fn cols(&self) -> Option<usize>
        ensures value { result ≡ cols_of self.now.state.held }
        ensures fits { IfSome result (λ n. n < 2 ^ 63) }
        ensures formed { IsFormed self.now.state }
    {
        match self.ambient() {
            Some(n) => Some(n),
            None => first_cols(&self.held),
        }
    }

    // The dimension that CONE_AMBIENT_DIM states, if it is held.
    fn ambient(&self) -> Option<usize>
        ensures value { result ≡ ambient_in (value_of ConeAmbientDim self.now.state.held) }
        ensures fits { IfSome result (λ n. n < 2 ^ 63) }
        ensures formed { IsFormed self.now.state }
    {
        match find(&self.held, PropId::ConeAmbientDim) {
            Some(Value::Int(k)) => whole_number(*k),
            _ => None,
        }
    }

    /// Adds a given value, unless the first of these holds: the property is held (`AlreadyHeld`), the object is sealed
    /// (`Sealed`), the type's table has no such property (`NotOfType`), the columns differ from n, or the
    /// number of sites from that of heights (`Columns`), a row fails the tests of its property, or its primitive row
    /// is not made within the range (`NotAThing`). Nothing changes where the answer is not Ok.
    pub fn take(&mut self, p: PropId, v: Value) -> Result<(), TakeFail>
        requires formed { IsTrue (is_formed p (view_of v)) }
        ensures ok { OnOk result (CanTake self.old.state None p (view_of v)) }
        ensures added { OnOk result (self.new.state
            ≡ with_held self.old.state (given_at None p (view_of v) ∷ [])) }
        ensures refused { IfErr result (λ e. e ≢ TakeFail.Memory
            → CannotTake self.old.state None p (view_of v) e) }
        ensures unchanged { OnErr result (self.new.state ≡ self.old.state) }
        ensures spare { OnOk result (self.old.spare ≤ self.new.spare + 1) }
        ensures spare_left { OnErr result (self.old.spare ≤ self.new.spare) }
    {
        self.take_at(None, p, v)
    }

    /// The same for the linear program at a place: it is sealed where it holds a computed value or a round was
    /// started for it, and takes its objective alone (`NotOfType` for any other property).
    pub fn take_in(&mut self, sub: u8, p: PropId, v: Value) -> Result<(), TakeFail>
        requires formed { IsTrue (is_formed p (view_of v)) }
        requires place { sub < length self.old.state.programs }
        ensures ok { OnOk result (CanTake self.old.state (Some sub) p (view_of v)) }
        ensures added { OnOk result (self.new.state
            ≡ with_held self.old.state (given_at (Some sub) p (view_of v) ∷ [])) }
        ensures refused { IfErr result (λ e. e ≢ TakeFail.Memory
            → CannotTake self.old.state (Some sub) p (view_of v) e) }
        ensures unchanged { OnErr result (self.new.state ≡ self.old.state) }
        ensures spare { OnOk result (self.old.spare ≤ self.new.spare + 1) }
        ensures spare_left { OnErr result (self.old.spare ≤ self.new.spare) }
    {
        self.take_at(Some(sub), p, v)
    }

    // Adds a given value to the object, or to the program at a place.
    fn take_at(&mut self, sub: Option<u8>, p: PropId, v: Value) -> Result<(), TakeFail>
        requires formed { IsTrue (is_formed p (view_of v)) }
        requires place { IfSome sub (λ s. s < length self.old.state.programs) }
        ensures ok { OnOk result (CanTake self.old.state sub p (view_of v)) }
        ensures added { OnOk result (self.new.state
            ≡ with_held self.old.state (given_at sub p (view_of v) ∷ [])) }
        ensures refused { IfErr result (λ e. e ≢ TakeFail.Memory
            → CannotTake self.old.state sub p (view_of v) e) }
        ensures unchanged { OnErr result (self.new.state ≡ self.old.state) }
        ensures spare { OnOk result (self.old.spare ≤ self.new.spare + 1) }
        ensures spare_left { OnErr result (self.old.spare ≤ self.new.spare) }
    {
        match self.may_take(sub, p, &v) {
            Ok(()) => match self.push_given(sub, p, v) {
                Ok(()) => Ok(()),
                Err(AllocError) => Err(TakeFail::Memory),
            },
            Err(refused) => {
                drop(v);
                Err(refused)
            }
        }
    }

    // Adds a given value that the object, or the program at a place, may take.
    fn push_given(&mut self, sub: Option<u8>, p: PropId, v: Value) -> Result<(), AllocError>
        requires missing { is_held p (read_at sub self.old.state.held) ≡ false }
        requires fits { IsFormedIn self.old.state.of (cols_of self.old.state.held)
            (length self.old.state.programs) (given_at sub p (view_of v)) }
        requires given { IsTrue (is_given_at self.old.state.of sub p) }
        requires sites { IsTrue (sites_agree self.old.state.held p (view_of v)) }
        ensures ok { OnOk result (self.new.state
            ≡ with_held self.old.state (given_at sub p (view_of v) ∷ [])) }
        ensures err { OnErr result (self.new.state ≡ self.old.state) }
        ensures spare { OnOk result (self.old.spare ≤ self.new.spare + 1) }
        ensures spare_left { OnErr result (self.old.spare ≤ self.new.spare) }
    {
        let given = Held {
            place: p.place(sub),
            id: p,
            value: v,
            origin: Origin::Given,
        };
        self.held.push(given)?;
        Ok(())
    }

    /// Adds a value that a file gives, of a property of the type's table that is not held. It has its form and agrees
    /// with n and, in the number of sites, with the given values, and its rows pass the tests of its property.
    pub fn add_given(&mut self, p: PropId, v: Value) -> Result<(), AllocError>
        requires formed { IsTrue (is_formed p (view_of v)) }
        requires missing { is_held p (read_at None self.old.state.held) ≡ false }
        requires table { IsTrue (has_property self.old.state.of p) }
        requires columns { IsTrue (agrees (cols_of self.old.state.held) p (view_of v)) }
        requires rows { IsTrue (are_rows self.old.state.of p (view_of v)) }
        requires primitive { HavePrimitiveRows p (view_of v) }
        requires sites { IsTrue (sites_agree self.old.state.held p (view_of v)) }
        ensures ok { OnOk result (self.new.state
            ≡ with_held self.old.state (file_value Given p (view_of v) ∷ [])) }
        ensures err { OnErr result (self.new.state ≡ self.old.state) }
        ensures spare { OnOk result (self.old.spare ≤ self.new.spare + 1) }
        ensures spare_left { OnErr result (self.old.spare ≤ self.new.spare) }
    {
        self.add_of_file(Origin::Given, p, v)
    }

    /// Adds such a value that was computed in an earlier run, with any number of sites. Then the object is sealed.
    pub fn add_stored(&mut self, p: PropId, v: Value) -> Result<(), AllocError>
        requires formed { IsTrue (is_formed p (view_of v)) }
        requires missing { is_held p (read_at None self.old.state.held) ≡ false }
        requires table { IsTrue (has_property self.old.state.of p) }
        requires columns { IsTrue (agrees (cols_of self.old.state.held) p (view_of v)) }
        requires rows { IsTrue (are_rows self.old.state.of p (view_of v)) }
        requires primitive { HavePrimitiveRows p (view_of v) }
        ensures ok { OnOk result (self.new.state
            ≡ with_held self.old.state (file_value Stored p (view_of v) ∷ [])) }
        ensures err { OnErr result (self.new.state ≡ self.old.state) }
        ensures spare { OnOk result (self.old.spare ≤ self.new.spare + 1) }
        ensures spare_left { OnErr result (self.old.spare ≤ self.new.spare) }
    {
        self.add_of_file(Origin::Stored, p, v)
    }

    // Adds a value of a file.
    fn add_of_file(&mut self, origin: Origin, p: PropId, v: Value) -> Result<(), AllocError>
        requires formed { IsTrue (is_formed p (view_of v)) }
        requires missing { is_held p (read_at None self.old.state.held) ≡ false }
        requires table { IsTrue (has_property self.old.state.of p) }
        requires columns { IsTrue (agrees (cols_of self.old.state.held) p (view_of v)) }
        requires rows { IsTrue (are_rows self.old.state.of p (view_of v)) }
        requires primitive { HavePrimitiveRows p (view_of v) }
        requires sites { IsTrue (is_given origin) → IsTrue (sites_agree self.old.state.held p (view_of v)) }
        ensures ok { OnOk result (self.new.state
            ≡ with_held self.old.state (file_value origin p (view_of v) ∷ [])) }
        ensures err { OnErr result (self.new.state ≡ self.old.state) }
        ensures spare { OnOk result (self.old.spare ≤ self.new.spare + 1) }
        ensures spare_left { OnErr result (self.old.spare ≤ self.new.spare) }
    {
        reads_entries(&v);
        let value = Held {
            place: None,
            id: p,
            value: v,
            origin,
        };
        self.held.push(value)?;
        Ok(())
    }

    // The first reason not to take a given value, if there is one.
    fn may_take(&self, sub: Option<u8>, p: PropId, v: &Value) -> Result<(), TakeFail>
        requires formed { IsTrue (is_formed p (view_of v.now)) }
        requires place { IfSome sub (λ s. s < length self.now.state.programs) }
        ensures ok { OnOk result (CanTake self.now.state sub p (view_of v.now)) }
        ensures missing { OnOk result (is_held p (read_at sub self.now.state.held) ≡ false) }
        ensures fits { OnOk result (IsFormedIn self.now.state.of (cols_of self.now.state.held)
            (length self.now.state.programs) (given_at sub p (view_of v.now))) }
        ensures given { OnOk result (IsTrue (is_given_at self.now.state.of sub p)) }
        ensures sites { OnOk result (IsTrue (sites_agree self.now.state.held p (view_of v.now))) }
        ensures refused { IfErr result (λ e. e ≢ TakeFail.Memory
            → CannotTake self.now.state sub p (view_of v.now) e) }
    {
        if self.holds(sub, p) {
            return Err(TakeFail::AlreadyHeld);
        }
        if self.is_sealed_at(sub) {
            return Err(TakeFail::Sealed);
        }
        if !is_given_at(self.of, sub, p) {
            return Err(TakeFail::NotOfType);
        }
        if !agrees(self.cols(), p, v) {
            return Err(TakeFail::Columns);
        }
        if !sites_agree(&self.held, p, v) {
            return Err(TakeFail::Columns);
        }
        if !are_rows(self.of, p, v) {
            return Err(TakeFail::NotAThing);
        }
        require_primitive_rows(*self.held.allocator(), p, v)
    }

    /// Whether this label was disabled.
    pub fn is_disabled(&self, label: &str) -> bool
        ensures { result ≡ is_disabled label.now self.now.state.disabled }
    {
        is_among(&self.disabled, label)
    }

    /// Disables a label; one that is disabled stays so, once.
    pub fn disable(&mut self, alloc: Global, label: &str) -> Result<(), AllocError>
        ensures ok { OnOk result (self.new.state
            ≡ (if is_disabled label.now self.old.state.disabled then self.old.state
            else with_disabled self.old.state label.now)) }
        ensures err { OnErr result (self.new.state ≡ self.old.state) }
        ensures spare { self.new.spare ≡ self.old.spare }
    {
        if self.is_disabled(label) {
            return Ok(());
        }
        let copy = String::from_str(alloc, label)?;
        self.disabled.push(copy)?;
        Ok(())
    }

    /// Adds what goes without saying, of an object without rounds. Then the object knows its dimension.
    pub fn settle(&mut self, alloc: Global) -> Result<(), AllocError>
        ensures ok { OnOk result (self.new.state ≡ with_held self.old.state (settling self.old.state)) }
        ensures dimension { OnOk result (IsTrue (is_held ConeAmbientDim self.new.state.held)) }
        ensures err { OnErr result (self.new.state ≡ self.old.state) }
        ensures spare { OnOk result (self.old.spare ≤ self.new.spare + length (settling self.old.state)) }
        ensures spare_left { OnErr result (self.old.spare ≤ self.new.spare) }
    {
        let mut more = self.settling(alloc)?;
        self.held.append(&mut more)?;
        Ok(())
    }

    // The values that settling adds.
    fn settling(&self, alloc: Global) -> Result<Vec<Held>, AllocError>
        ensures { IfOk result (λ v. map held_seen v.items ≡ settling self.now.state) }
    {
        let names = self.settling_names(alloc)?;
        settled_values(alloc, self.dimension(), &names)
    }

    // The properties that settling adds.
    fn settling_names(&self, alloc: Global) -> Result<Vec<PropId>, AllocError>
        ensures { IfOk result (λ v. v.items ≡ settling_names self.now.state) }
    {
        if self.has_rounds() {
            Ok(Vec::new(alloc))
        } else {
            self.names_to_settle(alloc)
        }
    }

    fn names_to_settle(&self, alloc: Global) -> Result<Vec<PropId>, AllocError>
        ensures { IfOk result (λ v. v.items ≡ names_to_settle self.now.state.held) }
    {
        let points = self.has(PropId::Points);
        let inequalities = self.has(PropId::Inequalities);
        let vertices = self.has(PropId::Vertices);
        let facets = self.has(PropId::Facets);
        let hull = self.has(PropId::AffineHull);
        let mut names = Vec::new(alloc);
        push_if(
            &mut names,
            self.lacks(PropId::ConeAmbientDim),
            PropId::ConeAmbientDim,
        )?;
        push_if(
            &mut names,
            points && self.lacks(PropId::InputLineality),
            PropId::InputLineality,
        )?;
        push_if(
            &mut names,
            inequalities && self.lacks(PropId::Equations),
            PropId::Equations,
        )?;
        push_if(
            &mut names,
            vertices
                && !points
                && !inequalities
                && !(facets && hull)
                && self.lacks(PropId::LinealitySpace),
            PropId::LinealitySpace,
        )?;
        push_if(
            &mut names,
            are_alone(facets, points, inequalities, vertices, hull),
            PropId::AffineHull,
        )?;
        Ok(names)
    }

    // Whether a property is not held.
    fn lacks(&self, p: PropId) -> bool
        ensures { result ≡ not (is_held p self.now.state.held) }
    {
        !self.has(p)
    }

    // The column count, or 1 where it is unknown.
    fn dimension(&self) -> usize
        ensures value { result ≡ unwrap_or (cols_of self.now.state.held) 1 }
        ensures fits { result < 2 ^ 63 }
    {
        match self.cols() {
            Some(n) => n,
            None => 1,
        }
    }

    /// An object that holds the same, with the same exclusions, rounds, disabled labels and linear programs.
    pub fn copy(&self, alloc: Global) -> Result<Object, AllocError>
        ensures { IfOk result (λ o. o.state ≡ self.now.state) }
    {
        Ok(Object {
            of: self.of,
            held: copy_held(alloc, &self.held)?,
            excluded: copy_excluded(alloc, &self.excluded)?,
            rounds: copy_rounds(alloc, &self.rounds)?,
            disabled: copy_labels(alloc, &self.disabled)?,
            programs: copy_labels(alloc, &self.programs)?,
        })
    }

    /// Adds a round, of an object that knows its dimension.
    pub fn add_round(&mut self, r: Round) -> Result<(), AllocError>
        requires dimension { IsTrue (is_held ConeAmbientDim self.old.state.held) }
        ensures ok { OnOk result (self.new.state ≡ with_round self.old.state (round_seen r)) }
        ensures err { OnErr result (self.new.state ≡ self.old.state) }
        ensures spare { self.new.spare ≡ self.old.spare }
    {
        self.rounds.push(r)?;
        Ok(())
    }

    /// Excludes a rule. The number of the evidence that a file told is from 1 to 5.
    pub fn exclude(&mut self, e: Excluded) -> Result<(), AllocError>
        requires numbered { IsTrue (is_numbered e.why) }
        ensures ok { OnOk result (self.new.state ≡ with_excluded self.old.state e) }
        ensures err { OnErr result (self.new.state ≡ self.old.state) }
        ensures spare { self.new.spare ≡ self.old.spare }
    {
        self.excluded.push(e)?;
        Ok(())
    }

    /// What a client of this kind may read for who asks this program, if one is asked: of an object that knows its
    /// column count and holds the kind's sources, with all names of the kind in use.
    pub fn view(&self, sub: Option<u8>, kind: &Kind) -> View<'_>
        requires known { IsTrue (is_some (cols_of self.now.state.held)) }
        requires sources { (p : PropId) → IsTrue (has kind.now.sources p)
            → IsTrue (is_held p (read_at sub self.now.state.held)) }
        requires in_use { IsKindOf sub self.now.state.of kind.now }
        ensures { result ≡ view_for self.now.state sub kind.now (unwrap_or (cols_of self.now.state.held) 1) }
    {
        let Some(cols) = self.cols() else {
            unreachable!()
        };
        View::new(self, sub, *kind, cols)
    }

    /// Makes room for this many values more; nothing else changes.
    pub fn reserve(&mut self, more: usize) -> Result<(), AllocError>
        ensures state { self.new.state ≡ self.old.state }
        ensures ok { OnOk result (more ≤ self.new.spare) }
        ensures spare { self.old.spare ≤ self.new.spare }
    {
        self.held.reserve(more)
    }

    /// Adds a computed value of a property that is not held there, of an object with room for it. One of a program
    /// that speaks of the order of the rays is added only where a value of the object itself does. Takes no memory.
    pub fn add_computed(&mut self, sub: Option<u8>, p: PropId, v: Value)
        requires room { 0 < self.old.spare }
        requires missing { is_held p (read_at sub self.old.state.held) ≡ false }
        requires formed { IsFormedIn self.old.state.of (cols_of self.old.state.held)
            (length self.old.state.programs) (computed_at sub p (view_of v)) }
        requires backed { IsBacked p self.old.state.held }
        ensures added { self.new.state ≡ with_held self.old.state (computed_at sub p (view_of v) ∷ []) }
        ensures spare { self.old.spare ≤ self.new.spare + 1 }
    {
        let computed = Held {
            place: p.place(sub),
            id: p,
            value: v,
            origin: Origin::Computed,
        };
        let Ok(()) = self.held.push(computed) else {
            unreachable!()
        };
    }
}

// Whether facets are held without what else is given or found first, and without an affine hull.
fn are_alone(facets: bool, points: bool, inequalities: bool, vertices: bool, hull: bool) -> bool
    ensures { result ≡ (facets && not points && not inequalities && not vertices && not hull) }
{
    facets && !points && !inequalities && !vertices && !hull
}

// Whether a value of the property may be given to the object, or to a program of it.
fn is_given_at(of: ObjectType, sub: Option<u8>, p: PropId) -> bool
    ensures { result ≡ is_given_at of sub p }
{
    match sub {
        None => p.is_in(of),
        Some(_) => p == PropId::LinearObjective,
    }
}

// Whether a computed value stands in the program at the place.
fn holds_computed(held: &[Held], place: u8) -> bool
    ensures { result ≡ holds_computed_at (Some place) (map held_seen held.now) }
{
    for h in held {
        if h.origin == Origin::Computed && h.place == Some(place) {
            return true;
        }
    }
    false
}

// Whether a round was started for the program at the place.
fn has_rounds_for(rounds: &[Round], place: u8) -> bool
    ensures { result ≡ has_rounds_at (Some place) (map round_seen rounds.now) }
{
    for r in rounds {
        if r.sub == Some(place) {
            return true;
        }
    }
    false
}

// The place of a name in a list.
fn place_of_name(names: &[String], name: &str) -> Option<usize>
    ensures value { result ≡ place_from 0 name.now (map string_bytes names.now) }
    ensures within { IfSome result (λ s. s < length names.now) }
{
    for (i, other) in names.iter().enumerate() {
        if other.as_str() == name {
            return Some(i);
        }
    }
    None
}

// Whether one of the values is stored.
fn holds_stored(held: &[Held]) -> bool
    ensures { result ≡ holds_stored (map held_seen held.now) }
{
    for h in held {
        if h.origin.is_stored() {
            return true;
        }
    }
    false
}

// Whether a label stands in the list.
fn is_among(labels: &[String], label: &str) -> bool
    ensures { result ≡ is_disabled label.now (map string_bytes labels.now) }
{
    for other in labels {
        if other.as_str() == label {
            return true;
        }
    }
    false
}

// A number that is not negative.
fn whole_number(k: i64) -> Option<usize>
    ensures value { result ≡ ambient_in (Some (whole k)) }
    ensures fits { IfSome result (λ n. n < 2 ^ 63) }
{
    if k >= 0 { Some(k as usize) } else { None }
}

// Whether two places are the same.
pub fn are_same(a: Option<u8>, b: Option<u8>) -> bool
    ensures { result ≡ same_place a b }
{
    match (a, b) {
        (None, None) => true,
        (Some(i), Some(j)) => i == j,
        _ => false,
    }
}

impl Held {
    // Whether the value is read by who asks this program, if one is asked.
    fn is_read_at(&self, sub: Option<u8>) -> bool
        ensures { result ≡ same_place self.now.place (place_of sub self.now.id) }
    {
        are_same(self.place, self.id.place(sub))
    }
}

// The names of the values that are read there.
fn names_of(held: &[Held], sub: Option<u8>) -> PropSet
    ensures { result ≡ names_of (read_at sub (map held_seen held.now)) }
{
    let mut names = PropSet::empty();
    for h in held {
        if h.is_read_at(sub) {
            names = names.with(h.id);
        }
    }
    names
}

// The value of a property that is read there.
fn find_at(held: &[Held], sub: Option<u8>, p: PropId) -> Option<&Value>
    ensures { option_map (λ v. view_of v.now) result ≡ value_of p (read_at sub (map held_seen held.now)) }
{
    for h in held {
        if h.is_read_at(sub) && h.id == p {
            return Some(&h.value);
        }
    }
    None
}

/// The value of a property in a list.
fn find(held: &[Held], p: PropId) -> Option<&Value>
    ensures { option_map (λ v. view_of v.now) result ≡ value_of p (map held_seen held.now) }
{
    for h in held {
        if h.id == p {
            return Some(&h.value);
        }
    }
    None
}
