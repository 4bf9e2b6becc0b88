// A session: named objects, the book, and its steps.

ghost use Rattle.pm_client.specs.Meanings.{Narrows, meanings};
ghost use Rattle.pm_machine.specs.Parts.{AllHonest, SavedInPart, StepInPart};
ghost use Rattle.pm_rounds.specs.Running.{HasPlace};
ghost use Rattle.pm_machine.specs.Sessions.{MakesNamed, book_of, is_spent, machine_at, machine_of, makes_object, only_tells};
ghost use Rattle.pm_machine.specs.Machines.{Gains, shelf, Stays};
ghost use Rattle.pm_machine.specs.Steps.{AllKept, CopyStep, DisableStep, DropStep, EnsureStep, EvidenceStep, ExplainStep, GiveStep, FileRead, HistoryStep, LoadStep, Looks, LookupStep, NewStep, OriginStep, NewObjectStep, NewProgramStep, RulesStep, SaveStep, ShowStep, Step, TakeStep, UnloadStep, is_program_word, named_at, part_named, type_word};
ghost use Rattle.pm_command.specs.Commands.{blank, ensure_values, explain_values, give_value, is_on_files, seen_ref, spoken};
ghost use Rattle.pm_command.specs.Grammar.{is_sub, ref_text};
ghost use Rattle.pm_props.specs.NameWords.{is_name};
ghost use Rattle.pm_script.specs.Replies.{seen};
ghost use Rattle.std.specs.Bool.{OnFalse, OnTrue};
ghost use Rattle.std.specs.Option.{option_map};
ghost use Rattle.std.specs.Prelude.{IfOk, IfSome, IsTrue, List, None, OnErr, OnOk, Option, Some, [], false, length, map, string_bytes, true, ℕ, ◌<◌, ◌≡◌, ◌≢◌, ◌≤◌};
ghost use Rattle.pm_limits.specs.Limits.{most_objects};

use crate::asking::{asked_in, ensure_values, explain_values, give_value, show_held};
use crate::files::why_of_file;
use crate::naming::{has_label, place_named};
use crate::taking::{property_named, take_text};
use indexmap::IndexMap;
use pm_books::book_text;
use pm_client::Client;
use pm_command::{Command, Ref};
use pm_filing::load_object;
use pm_limits::{MOST_FILE_BYTES, MOST_OBJECTS};
use pm_object::{Object, ProgramFail};
use pm_rules::Book;
use pm_saving::save_object;
use pm_script::{Condition, Refusal, Reply};
use pm_store::{Store, StoreFail};
use pm_telling::{origin_of, show_object, tell_evidence, tell_history};
use pm_types::ObjectType;
use std::alloc::{AllocError, Global};

/// Objects by name, in the order in which they came, and the book of rules.
#[derive(Drop)]
pub struct Session {
    pub(crate) book: Book,
    pub(crate) objects: IndexMap<String, Object>,
    spent: bool,
}

// The type that a word names.
fn type_named(text: &str) -> Option<ObjectType>
    ensures { result ≡ type_word text.now }
{
    match text {
        "Polytope" => Some(ObjectType::Polytope),
        "Cone" => Some(ObjectType::Cone),
        "Fan" => Some(ObjectType::Fan),
        _ => None,
    }
}

// Whether the word is the one for linear programs.
fn is_program_word(text: &str) -> bool
    ensures { result ≡ is_program_word text.now }
{
    text == "LP"
}

// The REF as it is written.
fn ref_text(alloc: Global, obj: &Ref) -> Result<String, AllocError>
    ensures { IfOk result (λ t. string_bytes t ≡ ref_text (seen_ref obj.now)) }
{
    let mut text = String::from_str(alloc, obj.name.as_str())?;
    if let Some(sub) = &obj.sub {
        text.push_str(".")?;
        text.push_str(sub.as_str())?;
    }
    Ok(text)
}

// The place of the program that the REF names of its object, if it names one; None where the object has no such
// program.
fn place_in(object: &Object, obj: &Ref) -> Option<Option<u8>>
    ensures named { option_map (λ s. record { object = object.now.state; sub = s }) result
        ≡ part_named object.now.state (option_map string_bytes obj.now.sub) }
    ensures within { IfSome result (λ s. HasPlace s object.now.state) }
{
    let Some(name) = &obj.sub else {
        return Some(None);
    };
    let place = object.program(name.as_str())?;
    Some(Some(place))
}

impl Session {
    /// A session without objects.
    pub fn new(alloc: Global, book: Book) -> Session
        ensures book { book_of result ≡ book }
        ensures none { (q : List ℕ) → (machine_of result []).object q ≡ None }
        ensures names { (machine_of result []).names ≡ [] }
        ensures ready { is_spent result ≡ false }
    {
        Session {
            book,
            objects: IndexMap::new(alloc),
            spent: false,
        }
    }

    /// The object of a name.
    pub fn object(&self, name: &str) -> Option<&Object>
        ensures { option_map (λ o. o.now.state) result ≡ (machine_of self.now []).object name.now }
    {
        self.objects.get(name)
    }

    // The object that a REF names, and the place of its program where the REF has a part.
    fn find(&self, obj: &Ref) -> Option<(&Object, Option<u8>)>
        ensures { option_map (λ x. record { object = x.0.now.state; sub = x.1 }) result
            ≡ named_at (shelf (machine_of self.now [])) (seen_ref obj.now) }
    {
        let object = self.objects.get(obj.name.as_str())?;
        let sub = place_in(object, obj)?;
        Some((object, sub))
    }

    // `lookup REF PROP`
    #[tactic(auto, using(crate::proofs::Ways::lookup_ways))]
    fn do_lookup(
        &self,
        alloc: Global,
        obj: &Ref,
        prop: &str,
        clients: &[Box<dyn Client>],
    ) -> Result<Reply, AllocError>
        ensures { IfOk result (λ r. LookupStep
            (machine_of self.now (map tally clients.now)) (seen_ref obj.now) prop.now (seen r)
            (machine_of self.now (map tally clients.now))) }
    {
        let Some((object, sub)) = self.find(obj) else {
            return Ok(Reply::refused(alloc, Refusal::UnknownName));
        };
        let Some(p) = property_named(object.of(), sub, prop) else {
            return Ok(Reply::refused(alloc, Refusal::UnknownProperty));
        };
        match object.lookup(sub, p) {
            Some(v) => show_held(alloc, ref_text(alloc, obj)?, object.of(), p, v),
            None => Ok(Reply::Undef),
        }
    }

    // Whether no object more may be made.
    pub(crate) fn is_full(&self) -> bool
        ensures full { OnTrue result (most_objects ≤ length (machine_of self.now []).names) }
        ensures free { OnFalse result (length (machine_of self.now []).names < most_objects) }
    {
        self.objects.len() >= MOST_OBJECTS
    }

    // Adds an object of a new name.
    pub(crate) fn add(&mut self, name: String, object: Object) -> Result<(), AllocError>
        requires { (machine_of self.old []).object (string_bytes name) ≡ None }
        ensures gains { OnOk result (Gains (string_bytes name) object.state
            (machine_of self.old []) (machine_of self.new [])) }
        ensures err { OnErr result (Stays (machine_of self.old []) (machine_of self.new [])) }
        ensures book { book_of self.new ≡ book_of self.old }
        ensures spent { is_spent self.new ≡ is_spent self.old }
    {
        self.objects.insert(name, object)?;
        Ok(())
    }

    // `new NAME TYPE`
    #[tactic(auto, using(crate::proofs::Ways::new_object_ways))]
    fn do_new_object(
        &mut self,
        alloc: Global,
        name: String,
        of: &str,
        clients: &[Box<dyn Client>],
    ) -> Result<Reply, AllocError>
        ensures step { IfOk result (λ r. NewObjectStep
            (machine_of self.old (map tally clients.now)) (string_bytes name) of.now (seen r)
            (machine_of self.new (map tally clients.now))) }
        ensures err { OnErr result (Stays (machine_of self.old (map tally clients.now))
            (machine_of self.new (map tally clients.now))) }
        ensures book { book_of self.new ≡ book_of self.old }
        ensures spent { is_spent self.new ≡ is_spent self.old }
    {
        let Some(of) = type_named(of) else {
            return Ok(Reply::refused(alloc, Refusal::UnknownType));
        };
        if let Some(why) = self.bars(name.as_str()) {
            return Ok(Reply::refused(alloc, why));
        }
        self.add(name, Object::new(alloc, of))?;
        Ok(Reply::done(alloc))
    }

    // `new NAME.SUB LP`
    #[tactic(auto, using(crate::proofs::Ways::new_program_ways))]
    fn do_new_program(
        &mut self,
        alloc: Global,
        name: &str,
        sub: &str,
        of: &str,
        clients: &[Box<dyn Client>],
    ) -> Result<Reply, AllocError>
        requires part { IsTrue (is_name sub.now) }
        ensures step { IfOk result (λ r. NewProgramStep
            (machine_of self.old (map tally clients.now)) name.now sub.now of.now (seen r)
            (machine_of self.new (map tally clients.now))) }
        ensures err { OnErr result (Stays (machine_of self.old (map tally clients.now))
            (machine_of self.new (map tally clients.now))) }
        ensures book { book_of self.new ≡ book_of self.old }
        ensures spent { is_spent self.new ≡ is_spent self.old }
    {
        if !is_program_word(of) {
            return Ok(Reply::refused(alloc, Refusal::UnknownType));
        }
        let Some(object) = self.objects.get_mut(name) else {
            return Ok(Reply::refused(alloc, Refusal::UnknownName));
        };
        match object.add_program(alloc, sub) {
            Ok(_) => Ok(Reply::done(alloc)),
            Err(ProgramFail::NotPolytope) => Ok(Reply::refused(alloc, Refusal::UnknownType)),
            Err(ProgramFail::NameTaken) => Ok(Reply::refused(alloc, Refusal::NameTaken)),
            Err(ProgramFail::Full) => Ok(Reply::refused(alloc, Refusal::ObjectsFull)),
            Err(ProgramFail::Memory) => Err(AllocError),
        }
    }

    // `new REF TYPE`
    fn do_new(
        &mut self,
        alloc: Global,
        name: String,
        sub: Option<String>,
        of: &str,
        clients: &[Box<dyn Client>],
    ) -> Result<Reply, AllocError>
        requires part { IsTrue (is_sub (option_map string_bytes sub)) }
        ensures step { IfOk result (λ r. NewStep
            (machine_of self.old (map tally clients.now))
            (record { name = string_bytes name; sub = option_map string_bytes sub }) of.now (seen r)
            (machine_of self.new (map tally clients.now))) }
        ensures err { OnErr result (Stays (machine_of self.old (map tally clients.now))
            (machine_of self.new (map tally clients.now))) }
        ensures book { book_of self.new ≡ book_of self.old }
        ensures spent { is_spent self.new ≡ is_spent self.old }
    {
        match sub {
            None => self.do_new_object(alloc, name, of, clients),
            Some(sub) => self.do_new_program(alloc, name.as_str(), sub.as_str(), of, clients),
        }
    }

    // `copy NAME NEW`
    #[tactic(auto, using(crate::proofs::Ways::copy_ways))]
    fn do_copy(
        &mut self,
        alloc: Global,
        name: &str,
        new: String,
        clients: &[Box<dyn Client>],
    ) -> Result<Reply, AllocError>
        ensures step { IfOk result (λ r. CopyStep
            (machine_of self.old (map tally clients.now)) name.now (string_bytes new) (seen r)
            (machine_of self.new (map tally clients.now))) }
        ensures err { OnErr result (Stays (machine_of self.old (map tally clients.now))
            (machine_of self.new (map tally clients.now))) }
        ensures book { book_of self.new ≡ book_of self.old }
        ensures spent { is_spent self.new ≡ is_spent self.old }
    {
        let Some(object) = self.objects.get(name) else {
            return Ok(Reply::refused(alloc, Refusal::UnknownName));
        };
        if let Some(why) = self.bars(new.as_str()) {
            return Ok(Reply::refused(alloc, why));
        }
        let copy = object.copy(alloc)?;
        self.add(new, copy)?;
        Ok(Reply::done(alloc))
    }

    // `drop NAME`
    fn do_drop(&mut self, alloc: Global, name: &str, clients: &[Box<dyn Client>]) -> Reply
        ensures step { DropStep (machine_of self.old (map tally clients.now)) name.now
            (seen result) (machine_of self.new (map tally clients.now)) }
        ensures book { book_of self.new ≡ book_of self.old }
        ensures spent { is_spent self.new ≡ is_spent self.old }
    {
        match self.objects.shift_remove(name) {
            Some(_) => Reply::done(alloc),
            None => Reply::refused(alloc, Refusal::UnknownName),
        }
    }

    // `origin REF PROP`
    fn do_origin(&self, alloc: Global, obj: &Ref, prop: &str, clients: &[Box<dyn Client>]) -> Reply
        ensures { OriginStep (machine_of self.now (map tally clients.now)) (seen_ref obj.now)
            prop.now (seen result) (machine_of self.now (map tally clients.now)) }
    {
        let Some((object, sub)) = self.find(obj) else {
            return Reply::refused(alloc, Refusal::UnknownName);
        };
        let Some(p) = property_named(object.of(), sub, prop) else {
            return Reply::refused(alloc, Refusal::UnknownProperty);
        };
        match origin_of(object, sub, p) {
            Some(origin) => Reply::Origin(origin),
            None => Reply::Undef,
        }
    }

    // `take REF PROP JSON`
    #[tactic(auto, using(crate::proofs::Ways::take_ways))]
    fn do_take(
        &mut self,
        alloc: Global,
        obj: &Ref,
        prop: &str,
        json: &str,
        clients: &[Box<dyn Client>],
    ) -> Result<Reply, AllocError>
        ensures step { IfOk result (λ r. TakeStep
            (machine_of self.old (map tally clients.now)) (seen_ref obj.now) prop.now json.now
            (seen r)
            (machine_of self.new (map tally clients.now))) }
        ensures err { OnErr result (Stays (machine_of self.old (map tally clients.now))
            (machine_of self.new (map tally clients.now))) }
        ensures book { book_of self.new ≡ book_of self.old }
        ensures spent { is_spent self.new ≡ is_spent self.old }
    {
        let Some(object) = self.objects.get_mut(obj.name.as_str()) else {
            return Ok(Reply::refused(alloc, Refusal::UnknownName));
        };
        let Some(sub) = place_in(object, obj) else {
            return Ok(Reply::refused(alloc, Refusal::UnknownName));
        };
        let Some(p) = property_named(object.of(), sub, prop) else {
            return Ok(Reply::refused(alloc, Refusal::UnknownProperty));
        };
        match take_text(alloc, object, sub, p, json) {
            Ok(Some(why)) => Ok(Reply::refused(alloc, why)),
            Ok(None) => Ok(Reply::done(alloc)),
            Err(fail) => Err(fail),
        }
    }

    // `give REF PROP`
    #[tactic(auto, using(crate::proofs::Ways::give_ways))]
    fn do_give(
        &mut self,
        alloc: Global,
        obj: &Ref,
        prop: &str,
        clients: &mut Vec<Box<dyn Client>>,
    ) -> Result<Reply, AllocError>
        ensures step { IfOk result (λ r. GiveStep
            (meanings tally MayPut MayFail clients.old.items) (book_of self.old)
            (machine_of self.old (map tally clients.old.items)) (seen_ref obj.now) prop.now (seen r)
            (machine_of self.new (map tally clients.new.items))) }
        ensures part { OnErr result (StepInPart
            (meanings tally MayPut MayFail clients.old.items) (book_of self.old)
            (machine_of self.old (map tally clients.old.items)) (give_value
            (seen_ref obj.now) prop.now)
            (machine_of self.new (map tally clients.new.items))) }
        ensures book { book_of self.new ≡ book_of self.old }
        ensures spent { is_spent self.new ≡ is_spent self.old }
        ensures narrows { Narrows (meanings tally MayPut MayFail clients.old.items)
            (meanings tally MayPut MayFail clients.new.items) }
    {
        let Some(object) = self.objects.get_mut(obj.name.as_str()) else {
            return Ok(Reply::refused(alloc, Refusal::UnknownName));
        };
        let Some(sub) = place_in(object, obj) else {
            return Ok(Reply::refused(alloc, Refusal::UnknownName));
        };
        let Some(p) = property_named(object.of(), sub, prop) else {
            return Ok(Reply::refused(alloc, Refusal::UnknownProperty));
        };
        let name = ref_text(alloc, obj)?;
        give_value(alloc, object, &self.book, sub, p, name, clients)
    }

    // `ensure REF PROP ..`
    #[tactic(auto, using(crate::proofs::Ways::ensure_ways))]
    fn do_ensure(
        &mut self,
        alloc: Global,
        obj: &Ref,
        props: &[String],
        clients: &mut Vec<Box<dyn Client>>,
    ) -> Result<Reply, AllocError>
        ensures step { IfOk result (λ r. EnsureStep
            (meanings tally MayPut MayFail clients.old.items) (book_of self.old)
            (machine_of self.old (map tally clients.old.items)) (seen_ref obj.now)
            (map string_bytes props.now) (seen r)
            (machine_of self.new (map tally clients.new.items))) }
        ensures part { OnErr result (StepInPart
            (meanings tally MayPut MayFail clients.old.items) (book_of self.old)
            (machine_of self.old (map tally clients.old.items)) (ensure_values
            (seen_ref obj.now) (map string_bytes props.now))
            (machine_of self.new (map tally clients.new.items))) }
        ensures book { book_of self.new ≡ book_of self.old }
        ensures spent { is_spent self.new ≡ is_spent self.old }
        ensures narrows { Narrows (meanings tally MayPut MayFail clients.old.items)
            (meanings tally MayPut MayFail clients.new.items) }
    {
        let Some(object) = self.objects.get_mut(obj.name.as_str()) else {
            return Ok(Reply::refused(alloc, Refusal::UnknownName));
        };
        let Some(sub) = place_in(object, obj) else {
            return Ok(Reply::refused(alloc, Refusal::UnknownName));
        };
        let Some(asked) = asked_in(object.of(), sub, props) else {
            return Ok(Reply::refused(alloc, Refusal::UnknownProperty));
        };
        ensure_values(alloc, object, &self.book, sub, asked, clients)
    }

    // `explain REF PROP ..`
    #[tactic(auto, using(crate::proofs::Ways::explain_ways))]
    fn do_explain(
        &mut self,
        alloc: Global,
        obj: &Ref,
        props: &[String],
        clients: &[Box<dyn Client>],
    ) -> Result<Reply, AllocError>
        ensures step { IfOk result (λ r. ExplainStep (book_of self.old)
            (machine_of self.old (map tally clients.now)) (seen_ref obj.now)
            (map string_bytes props.now) (seen r)
            (machine_of self.new (map tally clients.now))) }
        ensures part { OnErr result (StepInPart
            (meanings tally MayPut MayFail clients.now) (book_of self.old)
            (machine_of self.old (map tally clients.now)) (explain_values
            (seen_ref obj.now) (map string_bytes props.now))
            (machine_of self.new (map tally clients.now))) }
        ensures book { book_of self.new ≡ book_of self.old }
        ensures spent { is_spent self.new ≡ is_spent self.old }
    {
        let Some(object) = self.objects.get_mut(obj.name.as_str()) else {
            return Ok(Reply::refused(alloc, Refusal::UnknownName));
        };
        let Some(sub) = place_in(object, obj) else {
            return Ok(Reply::refused(alloc, Refusal::UnknownName));
        };
        let Some(asked) = asked_in(object.of(), sub, props) else {
            return Ok(Reply::refused(alloc, Refusal::UnknownProperty));
        };
        explain_values(alloc, object, &self.book, sub, asked, clients)
    }

    // `history NAME`
    #[tactic(auto, using(crate::proofs::Ways::history_ways))]
    fn do_history(
        &self,
        alloc: Global,
        name: &str,
        clients: &[Box<dyn Client>],
    ) -> Result<Reply, AllocError>
        ensures { IfOk result (λ r. HistoryStep (book_of self.now)
            (machine_of self.now (map tally clients.now)) name.now (seen r)
            (machine_of self.now (map tally clients.now))) }
    {
        let Some(object) = self.objects.get(name) else {
            return Ok(Reply::refused(alloc, Refusal::UnknownName));
        };
        tell_history(alloc, object, &self.book)
    }

    // `show NAME`
    #[tactic(auto, using(crate::proofs::Ways::show_ways))]
    fn do_show(
        &self,
        alloc: Global,
        name: &str,
        clients: &[Box<dyn Client>],
    ) -> Result<Reply, AllocError>
        ensures { IfOk result (λ r. ShowStep
            (machine_of self.now (map tally clients.now)) name.now (seen r)
            (machine_of self.now (map tally clients.now))) }
    {
        let Some(object) = self.objects.get(name) else {
            return Ok(Reply::refused(alloc, Refusal::UnknownName));
        };
        show_object(alloc, object)
    }

    // `evidence NAME LABEL`
    #[tactic(auto, using(crate::proofs::Ways::evidence_ways))]
    fn do_evidence(
        &self,
        alloc: Global,
        name: &str,
        label: &str,
        clients: &[Box<dyn Client>],
    ) -> Result<Reply, AllocError>
        ensures { IfOk result (λ r. EvidenceStep (book_of self.now)
            (machine_of self.now (map tally clients.now)) name.now label.now (seen r)
            (machine_of self.now (map tally clients.now))) }
    {
        let Some(object) = self.objects.get(name) else {
            return Ok(Reply::refused(alloc, Refusal::UnknownName));
        };
        if !has_label(self.book.rules(), label) {
            return Ok(Reply::refused(alloc, Refusal::UnknownRule));
        }
        tell_evidence(alloc, object, &self.book, label)
    }

    // `rules`
    #[tactic(auto, using(crate::proofs::Ways::rules_ways))]
    fn do_rules(&self, alloc: Global, clients: &[Box<dyn Client>]) -> Result<Reply, AllocError>
        ensures { IfOk result (λ r. RulesStep (book_of self.now)
            (machine_of self.now (map tally clients.now)) (seen r)
            (machine_of self.now (map tally clients.now))) }
    {
        Ok(Reply::Rules {
            count: self.book.rules().len(),
            text: book_text(alloc, &self.book)?,
        })
    }

    // `disable NAME LABEL`
    #[tactic(auto, using(crate::proofs::Ways::disable_ways))]
    fn do_disable(
        &mut self,
        alloc: Global,
        name: &str,
        label: &str,
        clients: &[Box<dyn Client>],
    ) -> Result<Reply, AllocError>
        ensures step { IfOk result (λ r. DisableStep (book_of self.old)
            (machine_of self.old (map tally clients.now)) name.now label.now (seen r)
            (machine_of self.new (map tally clients.now))) }
        ensures err { OnErr result (Stays (machine_of self.old (map tally clients.now))
            (machine_of self.new (map tally clients.now))) }
        ensures book { book_of self.new ≡ book_of self.old }
        ensures spent { is_spent self.new ≡ is_spent self.old }
    {
        let Some(object) = self.objects.get_mut(name) else {
            return Ok(Reply::refused(alloc, Refusal::UnknownName));
        };
        if !has_label(self.book.rules(), label) {
            return Ok(Reply::refused(alloc, Refusal::UnknownRule));
        }
        object.disable(alloc, label)?;
        Ok(Reply::done(alloc))
    }

    // `unload CLIENT`
    fn do_unload(&self, alloc: Global, client: &str, clients: &mut Vec<Box<dyn Client>>) -> Reply
        ensures step { UnloadStep (machine_of self.now (map tally clients.old.items)) client.now
            (seen result)
            (machine_of self.now (map tally clients.new.items)) }
        ensures narrows { Narrows (meanings tally MayPut MayFail clients.old.items)
            (meanings tally MayPut MayFail clients.new.items) }
    {
        let Some(place) = place_named(clients, client) else {
            return Reply::refused(alloc, Refusal::UnknownRule);
        };
        clients.remove(place);
        Reply::done(alloc)
    }

    // `load NAME FILE`
    #[tactic(auto, using(crate::proofs::Ways::load_ways))]
    fn do_load<F: Store>(
        &mut self,
        alloc: Global,
        name: String,
        file: &str,
        clients: &[Box<dyn Client>],
        store: &mut F,
    ) -> Result<Reply, AllocError>
        ensures step { IfOk result (λ r. LoadStep (book_of self.old)
            (machine_at self.old (map tally clients.now) (F.files store.old) (F.faults store.old))
            (string_bytes name) file.now (seen r)
            (machine_at self.new (map tally clients.now) (F.files store.new) (F.faults store.new))) }
        ensures err { OnErr result (Looks
            (machine_at self.old (map tally clients.now) (F.files store.old) (F.faults store.old))
            (machine_at self.new (map tally clients.now) (F.files store.new) (F.faults store.new))) }
        ensures book { book_of self.new ≡ book_of self.old }
        ensures spent { is_spent self.new ≡ is_spent self.old }
        ensures never_falls { F.faults store.old ≤ F.faults store.new }
    {
        if let Some(why) = self.bars(name.as_str()) {
            return Ok(Reply::refused(alloc, why));
        }
        let found = match store.get(alloc, file) {
            Ok(found) => found,
            Err(StoreFail::Failed) => return Ok(Reply::refused(alloc, Refusal::StoreFault)),
            Err(StoreFail::Memory) => return Err(AllocError),
        };
        let Some(bytes) = found else {
            return Ok(Reply::refused(alloc, Refusal::NoSuchFile));
        };
        self.add_file(alloc, name, &bytes)
    }

    // Adds the object of the bytes of a file, under a new name.
    #[tactic(auto, using(crate::proofs::Ways::file_ways))]
    fn add_file(&mut self, alloc: Global, name: String, bytes: &[u8]) -> Result<Reply, AllocError>
        requires { (machine_of self.old []).object (string_bytes name) ≡ None }
        ensures read { IfOk result (λ r. FileRead (book_of self.old) (string_bytes name) bytes.now (seen r)
            (machine_of self.old []) (machine_of self.new [])) }
        ensures err { OnErr result (Stays (machine_of self.old []) (machine_of self.new [])) }
        ensures book { book_of self.new ≡ book_of self.old }
        ensures spent { is_spent self.new ≡ is_spent self.old }
    {
        match load_object(alloc, &self.book, bytes) {
            Ok((object, ignored)) => {
                self.add(name, object)?;
                Ok(Reply::Loaded { ignored })
            }
            Err(fail) => match why_of_file(fail) {
                Some(why) => Ok(Reply::refused(alloc, Refusal::BadFile(why))),
                None => Err(AllocError),
            },
        }
    }

    // `save NAME FILE`
    #[tactic(auto, using(crate::proofs::Ways::save_ways))]
    fn do_save<F: Store>(
        &self,
        alloc: Global,
        name: &str,
        file: &str,
        clients: &[Box<dyn Client>],
        store: &mut F,
    ) -> Result<Reply, AllocError>
        ensures step { IfOk result (λ r. SaveStep (book_of self.now)
            (machine_at self.now (map tally clients.now) (F.files store.old) (F.faults store.old))
            name.now file.now (seen r)
            (machine_at self.now (map tally clients.now) (F.files store.new) (F.faults store.new))) }
        ensures part { OnErr result (SavedInPart (book_of self.now)
            (machine_at self.now (map tally clients.now) (F.files store.old) (F.faults store.old))
            name.now file.now
            (machine_at self.now (map tally clients.now) (F.files store.new) (F.faults store.new))) }
        ensures never_falls { F.faults store.old ≤ F.faults store.new }
    {
        let Some(object) = self.objects.get(name) else {
            return Ok(Reply::refused(alloc, Refusal::UnknownName));
        };
        let bytes = save_object(alloc, &self.book, object)?;
        if bytes.len() > MOST_FILE_BYTES {
            return Ok(Reply::refused(alloc, Refusal::NotFit(Condition::Size)));
        }
        match store.put(alloc, file, &bytes) {
            Ok(()) => Ok(Reply::done(alloc)),
            Err(StoreFail::Failed) => Ok(Reply::refused(alloc, Refusal::StoreFault)),
            Err(StoreFail::Memory) => Err(AllocError),
        }
    }

    // The step of a command that only tells.
    fn do_tell(
        &self,
        alloc: Global,
        c: &Command,
        clients: &[Box<dyn Client>],
    ) -> Result<Reply, AllocError>
        requires tells { only_tells (spoken c.now) ≡ true }
        ensures { IfOk result (λ r. Step (meanings tally MayPut MayFail clients.now) (book_of self.now)
            (machine_of self.now (map tally clients.now)) (spoken c.now) (seen r)
            (machine_of self.now (map tally clients.now))) }
    {
        match c {
            Command::Lookup { obj, prop } => self.do_lookup(alloc, obj, prop, clients),
            Command::History { name } => self.do_history(alloc, name, clients),
            Command::Show { name } => self.do_show(alloc, name, clients),
            Command::Evidence { name, label } => self.do_evidence(alloc, name, label, clients),
            Command::Rules => self.do_rules(alloc, clients),
            Command::Origin { obj, prop } => Ok(self.do_origin(alloc, obj, prop, clients)),
            _ => unreachable!(),
        }
    }

    // The step of a command that makes no object.
    fn do_there(
        &mut self,
        alloc: Global,
        c: &Command,
        clients: &mut Vec<Box<dyn Client>>,
    ) -> Result<Reply, AllocError>
        requires spoken { spoken c.now ≢ blank }
        requires there { makes_object (spoken c.now) ≡ false }
        requires own { is_on_files (spoken c.now) ≡ false }
        ensures step { IfOk result (λ r. Step
            (meanings tally MayPut MayFail clients.old.items) (book_of self.old)
            (machine_of self.old (map tally clients.old.items)) (spoken c.now) (seen r)
            (machine_of self.new (map tally clients.new.items))) }
        ensures part { OnErr result (StepInPart
            (meanings tally MayPut MayFail clients.old.items) (book_of self.old)
            (machine_of self.old (map tally clients.old.items)) (spoken c.now)
            (machine_of self.new (map tally clients.new.items))) }
        ensures book { book_of self.new ≡ book_of self.old }
        ensures spent { is_spent self.new ≡ is_spent self.old }
        ensures narrows { Narrows (meanings tally MayPut MayFail clients.old.items)
            (meanings tally MayPut MayFail clients.new.items) }
    {
        match c {
            Command::Take { obj, prop, json } => self.do_take(alloc, obj, prop, json, clients),
            Command::Give { obj, prop } => self.do_give(alloc, obj, prop, clients),
            Command::Ensure { obj, props } => self.do_ensure(alloc, obj, props, clients),
            Command::Explain { obj, props } => self.do_explain(alloc, obj, props, clients),
            Command::Disable { name, label } => self.do_disable(alloc, name, label, clients),
            Command::Unload { client } => Ok(self.do_unload(alloc, client, clients)),
            Command::DropObject { name } => Ok(self.do_drop(alloc, name, clients)),
            _ => self.do_tell(alloc, c, clients),
        }
    }

    // The command's own step.
    fn do_step(
        &mut self,
        alloc: Global,
        c: Command,
        clients: &mut Vec<Box<dyn Client>>,
    ) -> Result<Reply, AllocError>
        requires spoken { spoken c ≢ blank }
        requires named { MakesNamed (spoken c) }
        requires own { is_on_files (spoken c) ≡ false }
        ensures step { IfOk result (λ r. Step
            (meanings tally MayPut MayFail clients.old.items) (book_of self.old)
            (machine_of self.old (map tally clients.old.items)) (spoken c) (seen r)
            (machine_of self.new (map tally clients.new.items))) }
        ensures part { OnErr result (StepInPart
            (meanings tally MayPut MayFail clients.old.items) (book_of self.old)
            (machine_of self.old (map tally clients.old.items)) (spoken c)
            (machine_of self.new (map tally clients.new.items))) }
        ensures book { book_of self.new ≡ book_of self.old }
        ensures spent { is_spent self.new ≡ is_spent self.old }
        ensures narrows { Narrows (meanings tally MayPut MayFail clients.old.items)
            (meanings tally MayPut MayFail clients.new.items) }
    {
        match c {
            Command::New { obj, of } => self.do_new(alloc, obj.name, obj.sub, &of, clients),
            Command::Copy { name, new } => self.do_copy(alloc, &name, new, clients),
            Command::Make { new, shape } => self.do_make(alloc, new, shape, clients),
            Command::Build { what, new } => self.do_build(alloc, &what, new, clients),
            there => {
                let ran = self.do_there(alloc, &there, clients);
                drop(there);
                ran
            }
        }
    }

    // The step of a command on files.
    fn do_files<F: Store>(
        &mut self,
        alloc: Global,
        c: Command,
        clients: &[Box<dyn Client>],
        store: &mut F,
    ) -> Result<Reply, AllocError>
        requires files { is_on_files (spoken c) ≡ true }
        ensures step { IfOk result (λ r. Step
            (meanings tally MayPut MayFail clients.now) (book_of self.old)
            (machine_at self.old (map tally clients.now) (F.files store.old) (F.faults store.old))
            (spoken c) (seen r)
            (machine_at self.new (map tally clients.now) (F.files store.new) (F.faults store.new))) }
        ensures part { OnErr result (StepInPart
            (meanings tally MayPut MayFail clients.now) (book_of self.old)
            (machine_at self.old (map tally clients.now) (F.files store.old) (F.faults store.old))
            (spoken c)
            (machine_at self.new (map tally clients.now) (F.files store.new) (F.faults store.new))) }
        ensures book { book_of self.new ≡ book_of self.old }
        ensures spent { is_spent self.new ≡ is_spent self.old }
        ensures never_falls { F.faults store.old ≤ F.faults store.new }
    {
        match c {
            Command::Load { name, file } => self.do_load(alloc, name, &file, clients, store),
            Command::Save { name, file } => self.do_save(alloc, &name, &file, clients, store),
            _ => unreachable!(),
        }
    }

    // The command's own step, beside the store.
    fn do_any<F: Store>(
        &mut self,
        alloc: Global,
        c: Command,
        clients: &mut Vec<Box<dyn Client>>,
        store: &mut F,
    ) -> Result<Reply, AllocError>
        requires spoken { spoken c ≢ blank }
        requires named { MakesNamed (spoken c) }
        ensures step { IfOk result (λ r. Step
            (meanings tally MayPut MayFail clients.old.items) (book_of self.old)
            (machine_at self.old (map tally clients.old.items) (F.files store.old) (F.faults store.old))
            (spoken c) (seen r)
            (machine_at self.new (map tally clients.new.items) (F.files store.new) (F.faults store.new))) }
        ensures part { OnErr result (StepInPart
            (meanings tally MayPut MayFail clients.old.items) (book_of self.old)
            (machine_at self.old (map tally clients.old.items) (F.files store.old) (F.faults store.old))
            (spoken c)
            (machine_at self.new (map tally clients.new.items) (F.files store.new) (F.faults store.new))) }
        ensures book { book_of self.new ≡ book_of self.old }
        ensures spent { is_spent self.new ≡ is_spent self.old }
        ensures never_falls { F.faults store.old ≤ F.faults store.new }
        ensures narrows { Narrows (meanings tally MayPut MayFail clients.old.items)
            (meanings tally MayPut MayFail clients.new.items) }
    {
        if c.is_on_files() {
            self.do_files(alloc, c, clients, store)
        } else {
            self.do_step(alloc, c, clients)
        }
    }

    /// One step of the machine beside its store. Where memory is wanting a first part of its events occurred, maybe
    /// none or all; then the session answers nothing else, and changes nothing.
    /// The name of a linear program that the command makes is one by the grammar of lines.
    pub fn step<F: Store>(
        &mut self,
        alloc: Global,
        c: Command,
        clients: &mut Vec<Box<dyn Client>>,
        store: &mut F,
    ) -> Result<Reply, AllocError>
        requires spoken { spoken c ≢ blank }
        requires named { MakesNamed (spoken c) }
        ensures step { IfOk result (λ r. Step
            (meanings tally MayPut MayFail clients.old.items) (book_of self.old)
            (machine_at self.old (map tally clients.old.items) (F.files store.old) (F.faults store.old))
            (spoken c) (seen r)
            (machine_at self.new (map tally clients.new.items) (F.files store.new) (F.faults store.new))) }
        ensures part { OnErr result (StepInPart
            (meanings tally MayPut MayFail clients.old.items) (book_of self.old)
            (machine_at self.old (map tally clients.old.items) (F.files store.old) (F.faults store.old))
            (spoken c)
            (machine_at self.new (map tally clients.new.items) (F.files store.new) (F.faults store.new))) }
        ensures kept { OnOk result (AllKept
            (machine_at self.old (map tally clients.old.items) (F.files store.old) (F.faults store.old))
            → AllKept
            (machine_at self.new (map tally clients.new.items) (F.files store.new) (F.faults store.new))) }
        ensures honest { AllKept
            (machine_at self.old (map tally clients.old.items) (F.files store.old) (F.faults store.old))
            → AllHonest
            (machine_at self.new (map tally clients.new.items) (F.files store.new) (F.faults store.new)) }
        ensures book { book_of self.new ≡ book_of self.old }
        ensures ready { OnOk result (is_spent self.old ≡ false) }
        ensures still { OnOk result (is_spent self.new ≡ false) }
        ensures spent { OnErr result (is_spent self.new ≡ true) }
        ensures nothing { is_spent self.old ≡ true → Stays
            (machine_at self.old (map tally clients.old.items) (F.files store.old) (F.faults store.old))
            (machine_at self.new (map tally clients.new.items) (F.files store.new) (F.faults store.new)) }
        ensures never_falls { F.faults store.old ≤ F.faults store.new }
        ensures narrows { Narrows (meanings tally MayPut MayFail clients.old.items)
            (meanings tally MayPut MayFail clients.new.items) }
    {
        if self.spent {
            drop(c);
            return Err(AllocError);
        }
        let ran = self.do_any(alloc, c, clients, store);
        self.spent = ran.is_err();
        ran
    }
}
