// The calls of a transaction.

ghost use Rattle.pm_object.specs.Formed.{IsBacked, IsFormedIn};
ghost use Rattle.pm_object.specs.Honest.{facts};
ghost use Rattle.pm_object.specs.Laws.{computed, computed_at};
ghost use Rattle.pm_object.specs.Reading.{drafted, view_for, without};
ghost use Rattle.pm_object.specs.State.{cols_of, is_held, read_at, with_held};
ghost use Rattle.pm_object.specs.Views.{put_seen};
ghost use Rattle.pm_props.specs.Kinds.{IsKindOf};
ghost use Rattle.pm_props.specs.Sets.{has};
ghost use Rattle.pm_props.specs.declared.property.PropId.{PropId};
ghost use Rattle.pm_transact.specs.Commits.{FitsObject, added};
ghost use Rattle.pm_transact.specs.Transactions.{answer, begun, targets_of, with_value};
ghost use Rattle.pm_types.specs.Runs.{missing};
ghost use Rattle.pm_types.specs.Views.{view_of};
ghost use Rattle.std.specs.Option.{is_some, unwrap_or};
ghost use Rattle.std.specs.Prelude.{IfOk, IfSome, IsTrue, None, OnOk, length, map, vec_len, ◌<◌, ◌≤◌, ◌≡◌};

use pm_object::{Object, View, take_put};
use pm_rules::Rule;
use pm_types::{Kind, PropId, Value};
use std::alloc::{AllocError, Global};
use std::marker::Model;

/// What a client answered for the targets of a rule, until all of it is added to an object, or none.
#[derive(Drop)]
pub struct Transaction {
    kind: Kind,
    sub: Option<u8>,
    targets: Vec<PropId>,
    values: Vec<(PropId, Value)>,
}

impl Model for Transaction {
    ghost use Rattle.pm_object.specs.Views.{put_seen};
    ghost use Rattle.pm_props.specs.Sets.{members};
    ghost use Rattle.pm_transact.specs.Transactions.{TransactionSeen};
    ghost use Rattle.std.specs.Prelude.{map, vec_capacity, vec_len, ◌-◌, ◌≡◌};

    ghost Value = { TransactionSeen };

    ghost view = { λ t. record { kind = t.kind; sub = t.sub; values = map put_seen t.values.items; room = vec_capacity t.values - vec_len t.values } };

    ghost invariant = { λ t. t.targets.items ≡ members t.kind.targets };
}

impl Transaction {
    /// A transaction of the rule, with nothing added, for who asks this program, if one is asked. Takes the memory
    /// that adding and committing use, here and in the object; where it is wanting that is the error. No value
    /// changes.
    pub fn begin(
        alloc: Global,
        object: &mut Object,
        sub: Option<u8>,
        rule: &Rule,
    ) -> Result<Transaction, AllocError>
        ensures begun { IfOk result (λ t. t ≡ begun sub rule.now.kind) }
        ensures spare { OnOk result (targets_of rule.now.kind ≤ object.new.spare) }
        ensures state { object.new.state ≡ object.old.state }
    {
        let targets = rule.kind.targets.to_list(alloc)?;
        let values = Vec::with_capacity(alloc, targets.len())?;
        object.reserve(targets.len())?;
        Ok(Transaction {
            kind: rule.kind,
            sub,
            targets,
            values,
        })
    }

    /// What the rule's client may read of an object that knows its column count and holds the kind's sources, with all
    /// names of the kind in use.
    pub fn view<'a>(&self, object: &'a Object) -> View<'a>
        requires known { IsTrue (is_some (cols_of object.now.state.held)) }
        requires sources { (p : PropId) → IsTrue (has self.now.kind.sources p)
            → IsTrue (is_held p (read_at self.now.sub object.now.state.held)) }
        requires in_use { IsKindOf self.now.sub object.now.state.of self.now.kind }
        ensures { result ≡ view_for object.now.state self.now.sub self.now.kind
            (unwrap_or (cols_of object.now.state.held) 1) }
    {
        object.view(self.sub, &self.kind)
    }

    /// Adds the value of a target that was not added yet, to a transaction with room for it. Takes no memory.
    pub fn add(&mut self, p: PropId, v: Value)
        requires target { IsTrue (has self.old.kind.targets p) }
        requires missing { drafted p self.old.values ≡ None }
        requires room { 0 < self.old.room }
        ensures { self.new ≡ with_value self.old (record { property = p; value = view_of v }) }
    {
        self.values.push_reserved((p, v));
    }

    /// Adds the values that the object does not hold, in the order of their properties' numbers, as computed ones;
    /// what is held stays. The values fit the object, which knows its column count and has room for them. Takes no
    /// memory, and cannot fail.
    pub fn commit(self, object: &mut Object)
        requires known { IsTrue (is_some (cols_of object.old.state.held)) }
        requires room { length self.values ≤ object.old.spare }
        requires fits { FitsObject object.old.state (answer self) }
        ensures { object.new.state ≡ with_held object.old.state
            (computed (missing self.sub (facts object.old.state.held) (answer self))) }
    {
        let Transaction {
            kind: _,
            sub,
            targets,
            mut values,
        } = self;
        for p in &targets {
            commit_one(object, sub, &mut values, *p);
        }
    }

    /// Drops the added values. The object was not changed by them.
    pub fn roll_back(self) {}
}

// Adds the value of one target, where there is one and it is not held. Takes no memory.
fn commit_one(object: &mut Object, sub: Option<u8>, values: &mut Vec<(PropId, Value)>, p: PropId)
    requires known { IsTrue (is_some (cols_of object.old.state.held)) }
    requires room { vec_len values.old ≤ object.old.spare }
    requires fits { IfSome (drafted p (map put_seen values.old.items)) (λ v.
        IsFormedIn object.old.state.of (cols_of object.old.state.held) (length object.old.state.programs) (computed_at sub p v)) }
    requires backed { IfSome (drafted p (map put_seen values.old.items)) (λ v.
        IsBacked p object.old.state.held) }
    ensures added { object.new.state ≡ with_held object.old.state
        (added sub p (is_held p (read_at sub object.old.state.held)) (drafted p (map put_seen values.old.items))) }
    ensures cols { cols_of object.new.state.held ≡ cols_of object.old.state.held }
    ensures room { vec_len values.new ≤ object.new.spare }
    ensures values { map put_seen values.new.items ≡ without p (map put_seen values.old.items) }
{
    let held = object.lookup(sub, p).is_some();
    let Some(value) = take_put(values, p) else {
        return;
    };
    if !held {
        object.add_computed(sub, p, value);
    }
}
