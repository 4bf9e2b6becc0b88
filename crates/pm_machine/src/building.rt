// The commands that build objects.

ghost use Rattle.pm_client.specs.Meanings.{Narrows, meanings};
ghost use Rattle.pm_command.specs.Builders.{builder_of, operands_of};
ghost use Rattle.pm_command.specs.Commands.{seen_shape};
ghost use Rattle.pm_files.specs.Views.{file_of};
ghost use Rattle.pm_machine.specs.Building.{BuildStep, BuiltInPart, EnsuresInPart, EnsuresOneInPart, MakeStep, are_named, are_of, is_of_type, wanted_all, wanted_of};
ghost use Rattle.pm_making.specs.Rows.{row_of, same_type};
ghost use Rattle.pm_machine.specs.Built.{Builds, HaveRead, IsBuilt, MakesBuilt, TellsAll, TellsOne};
ghost use Rattle.pm_making.specs.Made.{IsFitting};
ghost use Rattle.pm_machine.specs.Machines.{IsNewName, NewNameRefusal, shelf, Stays};
ghost use Rattle.pm_machine.specs.Sessions.{book_of, is_spent, machine_of};
ghost use Rattle.pm_object.specs.Views.{round_seen};
ghost use Rattle.pm_script.specs.Replies.{names_seen, seen};
ghost use Rattle.std.specs.Option.{is_some};
ghost use Rattle.std.specs.Prelude.{IfNone, IfOk, IfSome, IsTrue, None, OnErr, [], map, string_bytes, true, ◌≡◌};

use crate::asking::rounds_after;
use crate::session::Session;
use pm_client::Client;
use pm_command::{Building, Shape};
use pm_files::FileObject;
use pm_making::{Unbuilt, build_one, build_shape, build_two, object_of, of_built, row_of};
use pm_object::{Condition, Round};
use pm_object_type::ObjectType;
use pm_rounds::{Ending, ensure};
use pm_script::{Names, Refusal, Reply};
use pm_telling::rule_names;
use pm_types::{PropId, PropSet};
use std::alloc::{AllocError, Global};

// Whether the types are the same.
fn is_type(a: ObjectType, b: ObjectType) -> bool
    ensures { result ≡ same_type a b }
{
    a == b
}

impl Session {
    // Whether an object has the name.
    fn has(&self, name: &str) -> bool
        ensures { result ≡ is_some ((machine_of self.now []).object name.now) }
    {
        self.objects.get(name).is_some()
    }

    // Whether each name is that of an object.
    fn are_named(&self, what: &Building) -> bool
        ensures { result ≡ are_named (shelf (machine_of self.now [])) (operands_of what.now) }
    {
        match what {
            Building::One(_, name) => self.has(name),
            Building::Two(_, first, second) => self.has(first) && self.has(second),
        }
    }

    // Whether an object of the type has the name.
    fn is_of(&self, of: ObjectType, name: &str) -> bool
        ensures { result ≡ is_of_type of ((machine_of self.now []).object name.now) }
    {
        match self.objects.get(name) {
            Some(object) => is_type(of, object.of()),
            None => false,
        }
    }

    // Whether each name is that of an object of the type.
    fn are_of(&self, of: ObjectType, what: &Building) -> bool
        ensures { result ≡ are_of of (shelf (machine_of self.now [])) (operands_of what.now) }
    {
        match what {
            Building::One(_, name) => self.is_of(of, name),
            Building::Two(_, first, second) => self.is_of(of, first) && self.is_of(of, second),
        }
    }

    // Why no new object may have the name, if so.
    #[tactic(auto, using(crate::proofs::Ways::new_name_ways))]
    pub(crate) fn bars(&self, name: &str) -> Option<Refusal>
        ensures some { IfSome result (NewNameRefusal (shelf (machine_of self.now [])) name.now) }
        ensures none { IfNone result (IsNewName (shelf (machine_of self.now [])) name.now) }
    {
        if self.objects.get(name).is_some() {
            return Some(Refusal::NameTaken);
        }
        if self.is_full() {
            return Some(Refusal::ObjectsFull);
        }
        None
    }

    // Adds the object of the values that were built, or says which condition fails, or why it is not made, and tells
    // the rounds.
    fn add_made(
        &mut self,
        alloc: Global,
        new: String,
        built: Result<FileObject, Unbuilt>,
        rounds: Vec<Round>,
        names: Names,
    ) -> Result<Reply, AllocError>
        requires fitting { IfOk built (λ f. IsFitting (file_of f)) }
        requires free { (machine_of self.old []).object (string_bytes new) ≡ None }
        ensures made { IfOk result (λ r. MakesBuilt (string_bytes new) built
            (record { rounds = map round_seen rounds.items; names = names_seen names }) (seen r)
            (machine_of self.old []) (machine_of self.new [])) }
        ensures err { OnErr result (Stays (machine_of self.old []) (machine_of self.new [])) }
        ensures book { book_of self.new ≡ book_of self.old }
        ensures spent { is_spent self.new ≡ is_spent self.old }
    {
        match built {
            Ok(file) => {
                let object = object_of(alloc, file)?;
                self.add(new, object)?;
                Ok(Reply::Done { rounds, names })
            }
            Err(Unbuilt::NotFit(condition)) => {
                let why = Refusal::NotFit(condition);
                Ok(Reply::refused_after(alloc, why, false, rounds, names))
            }
            Err(Unbuilt::NotMade(reason)) => {
                let why = Refusal::NotMade(reason);
                Ok(Reply::refused_after(alloc, why, false, rounds, names))
            }
            Err(Unbuilt::Memory) => Err(AllocError),
        }
    }

    // `make NEW SHAPE N ..`
    pub(crate) fn do_make(
        &mut self,
        alloc: Global,
        new: String,
        shape: Shape,
        clients: &[Box<dyn Client>],
    ) -> Result<Reply, AllocError>
        ensures step { IfOk result (λ r. MakeStep (machine_of self.old (map tally clients.now))
            (string_bytes new) (seen_shape shape) (seen r)
            (machine_of self.new (map tally clients.now))) }
        ensures err { OnErr result (Stays (machine_of self.old (map tally clients.now))
            (machine_of self.new (map tally clients.now))) }
        ensures book { book_of self.new ≡ book_of self.old }
        ensures spent { is_spent self.new ≡ is_spent self.old }
    {
        if let Some(why) = self.bars(new.as_str()) {
            return Ok(Reply::refused(alloc, why));
        }
        let built = of_built(build_shape(alloc, shape));
        self.add_made(alloc, new, built, Vec::new(alloc), Names::none(alloc))
    }

    // Ensures a property of the object of a name, and puts its rounds behind the others.
    fn ensure_one(
        &mut self,
        alloc: Global,
        name: &str,
        p: PropId,
        clients: &mut Vec<Box<dyn Client>>,
        rounds: &mut Vec<Round>,
    ) -> Result<Ending, AllocError>
        requires named { IsTrue (is_some ((machine_of self.old []).object name.now)) }
        ensures ok { IfOk result (λ e. TellsOne
            (meanings tally MayPut MayFail clients.old.items) (book_of self.old)
            (record { name = name.now; property = p }) e
            (map round_seen rounds.old.items) (map round_seen rounds.new.items)
            (machine_of self.old (map tally clients.old.items))
            (machine_of self.new (map tally clients.new.items))) }
        ensures part { OnErr result (EnsuresOneInPart
            (meanings tally MayPut MayFail clients.old.items) (book_of self.old)
            (record { name = name.now; property = p })
            (machine_of self.old (map tally clients.old.items))
            (machine_of self.new (map tally clients.new.items))) }
        ensures book { book_of self.new ≡ book_of self.old }
        ensures spent { is_spent self.new ≡ is_spent self.old }
        ensures narrows { Narrows (meanings tally MayPut MayFail clients.old.items)
            (meanings tally MayPut MayFail clients.new.items) }
    {
        let Some(object) = self.objects.get_mut(name) else {
            unreachable!()
        };
        let before = object.rounds().len();
        let ending = ensure(alloc, object, &self.book, None, PropSet::of(p), clients)?;
        let mut later = rounds_after(alloc, object, before)?;
        rounds.append(&mut later)?;
        Ok(ending)
    }

    // Ensures properties of the object of a name, one after another, until one is not found.
    fn ensure_all(
        &mut self,
        alloc: Global,
        name: &str,
        ps: &[PropId],
        clients: &mut Vec<Box<dyn Client>>,
        rounds: &mut Vec<Round>,
    ) -> Result<Ending, AllocError>
        requires named { IsTrue (is_some ((machine_of self.old []).object name.now)) }
        ensures ok { IfOk result (λ e. TellsAll
            (meanings tally MayPut MayFail clients.old.items) (book_of self.old) (wanted_of name.now ps.now) e
            (map round_seen rounds.old.items) (map round_seen rounds.new.items)
            (machine_of self.old (map tally clients.old.items))
            (machine_of self.new (map tally clients.new.items))) }
        ensures part { OnErr result (EnsuresInPart
            (meanings tally MayPut MayFail clients.old.items) (book_of self.old) (wanted_of name.now ps.now)
            (machine_of self.old (map tally clients.old.items))
            (machine_of self.new (map tally clients.new.items))) }
        ensures book { book_of self.new ≡ book_of self.old }
        ensures spent { is_spent self.new ≡ is_spent self.old }
        ensures narrows { Narrows (meanings tally MayPut MayFail clients.old.items)
            (meanings tally MayPut MayFail clients.new.items) }
    {
        for p in ps {
            let ending = self.ensure_one(alloc, name, *p, clients, rounds)?;
            let Ending::Found = ending else {
                return Ok(ending);
            };
        }
        Ok(Ending::Found)
    }

    // Ensures what a command reads of its objects, that of the first before that of the second.
    fn ensure_operands(
        &mut self,
        alloc: Global,
        what: &Building,
        clients: &mut Vec<Box<dyn Client>>,
        rounds: &mut Vec<Round>,
    ) -> Result<Ending, AllocError>
        requires named { are_named (shelf (machine_of self.old [])) (operands_of what.now) ≡ true }
        ensures ok { IfOk result (λ e. TellsAll
            (meanings tally MayPut MayFail clients.old.items) (book_of self.old)
            (wanted_all (row_of (builder_of what.now)).reads (operands_of what.now)) e
            (map round_seen rounds.old.items) (map round_seen rounds.new.items)
            (machine_of self.old (map tally clients.old.items))
            (machine_of self.new (map tally clients.new.items))) }
        ensures part { OnErr result (EnsuresInPart
            (meanings tally MayPut MayFail clients.old.items) (book_of self.old)
            (wanted_all (row_of (builder_of what.now)).reads (operands_of what.now))
            (machine_of self.old (map tally clients.old.items))
            (machine_of self.new (map tally clients.new.items))) }
        ensures book { book_of self.new ≡ book_of self.old }
        ensures spent { is_spent self.new ≡ is_spent self.old }
        ensures narrows { Narrows (meanings tally MayPut MayFail clients.old.items)
            (meanings tally MayPut MayFail clients.new.items) }
    {
        let row = row_of(what.builder());
        match what {
            Building::One(_, name) => self.ensure_all(alloc, name, row.reads, clients, rounds),
            Building::Two(_, first, second) => {
                let ending = self.ensure_all(alloc, first, row.reads, clients, rounds)?;
                let Ending::Found = ending else {
                    return Ok(ending);
                };
                self.ensure_all(alloc, second, row.reads, clients, rounds)
            }
        }
    }

    // What is built of the objects of a command, of which was read what is needed.
    fn build(&self, alloc: Global, what: &Building) -> Result<FileObject, Unbuilt>
        requires { HaveRead (builder_of what.now) (machine_of self.now [])
            (operands_of what.now) }
        ensures built { IsBuilt (builder_of what.now) (machine_of self.now [])
            (operands_of what.now) result }
        ensures fitting { IfOk result (λ f. IsFitting (file_of f)) }
    {
        match what {
            Building::One(what, name) => {
                let Some(object) = self.objects.get(name.as_str()) else {
                    unreachable!()
                };
                of_built(build_one(alloc, *what, object))
            }
            Building::Two(what, first, second) => {
                let Some(a) = self.objects.get(first.as_str()) else {
                    unreachable!()
                };
                let Some(b) = self.objects.get(second.as_str()) else {
                    unreachable!()
                };
                build_two(alloc, *what, a, b)
            }
        }
    }

    // Makes an object of others, of which was read what is needed.
    fn build_read(
        &mut self,
        alloc: Global,
        what: &Building,
        new: String,
        rounds: Vec<Round>,
        names: Names,
    ) -> Result<Reply, AllocError>
        requires read { HaveRead (builder_of what.now) (machine_of self.old [])
            (operands_of what.now) }
        requires free { (machine_of self.old []).object (string_bytes new) ≡ None }
        ensures builds { IfOk result (λ r. Builds (builder_of what.now)
            (operands_of what.now) (string_bytes new)
            (record { rounds = map round_seen rounds.items; names = names_seen names }) (seen r)
            (machine_of self.old []) (machine_of self.new [])) }
        ensures err { OnErr result (Stays (machine_of self.old []) (machine_of self.new [])) }
        ensures book { book_of self.new ≡ book_of self.old }
        ensures spent { is_spent self.new ≡ is_spent self.old }
    {
        let built = self.build(alloc, what);
        self.add_made(alloc, new, built, rounds, names)
    }

    // `WORD NAME NEW`, `WORD NAME NAME NEW`
    pub(crate) fn do_build(
        &mut self,
        alloc: Global,
        what: &Building,
        new: String,
        clients: &mut Vec<Box<dyn Client>>,
    ) -> Result<Reply, AllocError>
        ensures step { IfOk result (λ r. BuildStep
            (meanings tally MayPut MayFail clients.old.items) (book_of self.old)
            (builder_of what.now) (machine_of self.old (map tally clients.old.items))
            (operands_of what.now) (string_bytes new) (seen r)
            (machine_of self.new (map tally clients.new.items))) }
        ensures part { OnErr result (BuiltInPart
            (meanings tally MayPut MayFail clients.old.items) (book_of self.old)
            (builder_of what.now) (operands_of what.now) (string_bytes new)
            (machine_of self.old (map tally clients.old.items))
            (machine_of self.new (map tally clients.new.items))) }
        ensures book { book_of self.new ≡ book_of self.old }
        ensures spent { is_spent self.new ≡ is_spent self.old }
        ensures narrows { Narrows (meanings tally MayPut MayFail clients.old.items)
            (meanings tally MayPut MayFail clients.new.items) }
    {
        if !self.are_named(what) {
            return Ok(Reply::refused(alloc, Refusal::UnknownName));
        }
        if let Some(why) = self.bars(new.as_str()) {
            return Ok(Reply::refused(alloc, why));
        }
        let row = row_of(what.builder());
        if !self.are_of(row.of, what) {
            return Ok(Reply::refused(alloc, Refusal::NotFit(Condition::OfType)));
        }
        let mut rounds = Vec::new(alloc);
        let ending = self.ensure_operands(alloc, what, clients, &mut rounds)?;
        let names = rule_names(alloc, self.book.rules())?;
        match ending {
            Ending::Found => self.build_read(alloc, what, new, rounds, names),
            Ending::NoChain => Ok(Reply::refused_after(
                alloc,
                Refusal::NoChain,
                false,
                rounds,
                names,
            )),
            Ending::Crowded => Ok(Reply::refused_after(
                alloc,
                Refusal::Crowded,
                false,
                rounds,
                names,
            )),
        }
    }
}
