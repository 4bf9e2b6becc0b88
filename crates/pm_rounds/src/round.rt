// Rounds on an object.

ghost use Rattle.pm_client.specs.Meanings.{Narrows, meanings};
ghost use Rattle.pm_client.specs.Sound.{FailsRightly, IsSound};
ghost use Rattle.pm_client.specs.Starts.{after_start, has_client};
ghost use Rattle.pm_rounds.specs.Chains.{AllHeld, held_names, table};
ghost use Rattle.pm_rounds.specs.Events.{Ensured, EnsuredInPart, ReachesInPart, StartedRule, at_rest, columns, configuration, turns};
ghost use Rattle.pm_rounds.specs.Running.{BreaksTurn, FollowsChain, HasPlace, IsStale, MayFollow, NextRound, RunsRound, RunsRule, TakesTurn, failed_so, ran_so};
ghost use Rattle.pm_object.specs.Honest.{facts};
ghost use Rattle.pm_object.specs.Reading.{view_for};
ghost use Rattle.pm_object.specs.State.{cols_of, is_held};
ghost use Rattle.pm_rules.specs.Books.{IsBook, IsRule};
ghost use Rattle.pm_rules.specs.Chains.{weigh};
ghost use Rattle.pm_rules.specs.Rules.{IsEnabled};
ghost use Rattle.pm_props.specs.Kinds.{IsKindOf};
ghost use Rattle.pm_props.specs.declared.set.PropSet.{PropSet};
ghost use Rattle.pm_types.specs.Runs.{MayRun};
ghost use Rattle.pm_props.specs.declared.property.PropId.TheVariants.{ConeAmbientDim};
ghost use Rattle.pm_transact.specs.Transactions.{begun, targets_of};
ghost use Rattle.std.specs.Option.{is_some};
ghost use Rattle.std.specs.Prelude.{IfErr, IfOk, IsTrue, None, OnErr, OnOk, [], map, ◌≤◌, ◌≡◌};

use crate::chain::{barred_rules, first_wrong, place_of_rule, table};
use crate::moving::move_values;
use pm_client::{Client, ClientFail, run_first};
use pm_object::{Draft, Excluded, Object, Round, RoundEnd, Why};
use pm_plan::{Plan, PlanEnd, plan};
use pm_rules::{Book, Rule};
use pm_transact::Transaction;
use pm_types::{PropSet, RuleId};
use pm_weights::Cost;
use std::alloc::{AllocError, Global};

/// How ensuring ends.
#[derive(Clone, Copy, PartialEq, Eq)]
pub enum Ending {
    /// All that was asked is held.
    Found,
    /// No chain of rules leads to it.
    NoChain,
    /// Too many sets of names cost less than a chain that leads to it.
    Crowded,
}

// Runs the client of a rule on what its transaction shows.
fn run_client(
    alloc: Global,
    object: &Object,
    transaction: &Transaction,
    clients: &mut Vec<Box<dyn Client>>,
    draft: &mut Draft,
) -> Result<(), ClientFail>
    requires there { IsTrue (has_client transaction.now.kind (map tally clients.old.items)) }
    requires known { IsTrue (is_some (cols_of object.now.state.held)) }
    requires in_use { IsKindOf transaction.now.sub object.now.state.of transaction.now.kind }
    requires may { MayRun transaction.now.kind transaction.now.sub (columns object.now.state)
        (facts object.now.state.held) }
    requires empty { draft.old ≡ record { kind = transaction.now.kind; values = [] } }
    ensures started { map tally clients.new.items
        ≡ after_start transaction.now.kind (map tally clients.old.items) }
    ensures kind { draft.new.kind ≡ transaction.now.kind }
    ensures sound { OnOk result (IsSound
        (view_for object.now.state transaction.now.sub transaction.now.kind
        (columns object.now.state)) draft.new) }
    ensures failed { IfErr result (FailsRightly
        (view_for object.now.state transaction.now.sub transaction.now.kind (columns object.now.state))) }
    ensures gives { OnOk result ((meanings tally MayPut MayFail clients.old.items).Gives
        (view_for object.now.state transaction.now.sub transaction.now.kind
        (columns object.now.state)) draft.new) }
    ensures fails { IfErr result ((meanings tally MayPut MayFail clients.old.items).Fails
        (view_for object.now.state transaction.now.sub transaction.now.kind
        (columns object.now.state))) }
    ensures narrows { Narrows (meanings tally MayPut MayFail clients.old.items)
        (meanings tally MayPut MayFail clients.new.items) }
{
    let view = transaction.view(object);
    run_first(alloc, clients, &view, draft)
}

// Commits what the client of a rule answered, or rolls back and excludes the rule with its evidence; nothing changes
// where memory is wanting.
fn end_run(
    object: &mut Object,
    sub: Option<u8>,
    id: RuleId,
    rule: &Rule,
    mut transaction: Transaction,
    draft: &mut Draft,
    ran: Result<(), ClientFail>,
) -> Result<RoundEnd, AllocError>
    requires place { HasPlace sub object.old.state }
    requires in_use { IsKindOf sub object.old.state.of rule.now.kind }
    requires stale { IsStale rule.now.kind }
    requires started { StartedRule sub rule.now object.old.state }
    requires begun { transaction ≡ begun sub rule.now.kind }
    requires spare { targets_of rule.now.kind ≤ object.old.spare }
    requires kind { draft.old.kind ≡ rule.now.kind }
    requires sound { OnOk ran (IsSound
        (view_for object.old.state sub rule.now.kind
        (columns object.old.state)) draft.old) }
    requires failed { IfErr ran (FailsRightly
        (view_for object.old.state sub rule.now.kind
        (columns object.old.state))) }
    ensures ok { IfOk result (λ end. RunsRule
        (ran_so (view_for object.old.state sub rule.now.kind (columns object.old.state)) draft.old ran)
        sub id rule.now object.old.state end object.new.state) }
    ensures err { OnErr result (object.new.state ≡ object.old.state) }
{
    match ran {
        Ok(()) => {
            // Its values have their forms.
            let _of = object.of();
            move_values(&mut transaction, draft);
            transaction.commit(object);
            Ok(RoundEnd::Done)
        }
        Err(fail) => {
            transaction.roll_back();
            exclude_failed(object, sub, id, rule, fail)
        }
    }
}

// Excludes a rule whose client failed, with its evidence; nothing changes where memory is wanting.
fn exclude_failed(
    object: &mut Object,
    sub: Option<u8>,
    id: RuleId,
    rule: &Rule,
    fail: ClientFail,
) -> Result<RoundEnd, AllocError>
    requires started { StartedRule sub rule.now object.old.state }
    requires failed { FailsRightly
        (view_for object.old.state sub rule.now.kind (columns object.old.state)) fail }
    ensures ok { IfOk result (λ end. RunsRule
        (failed_so (view_for object.old.state sub rule.now.kind (columns object.old.state)) fail)
        sub id rule.now object.old.state end object.new.state) }
    ensures err { OnErr result (object.new.state ≡ object.old.state) }
{
    match fail {
        ClientFail::Memory => Err(AllocError),
        ClientFail::Failed(evidence) => {
            let number = evidence.number();
            let excluded = Excluded {
                rule: id,
                sub: place_of_rule(sub, rule),
                why: Why::Failed(evidence),
            };
            object.exclude(excluded)?;
            Ok(RoundEnd::Failed(id, number))
        }
    }
}

// Runs the client of a rule, and commits what it answers, or excludes the rule with its evidence.
fn run_rule(
    alloc: Global,
    object: &mut Object,
    sub: Option<u8>,
    id: RuleId,
    rule: &Rule,
    clients: &mut Vec<Box<dyn Client>>,
) -> Result<RoundEnd, AllocError>
    requires there { IsTrue (has_client rule.now.kind (map tally clients.old.items)) }
    requires place { HasPlace sub object.old.state }
    requires in_use { IsKindOf sub object.old.state.of rule.now.kind }
    requires stale { IsStale rule.now.kind }
    requires may { StartedRule sub rule.now object.old.state }
    ensures started { OnOk result (map tally clients.new.items ≡ after_start rule.now.kind
        (map tally clients.old.items)) }
    ensures ok { IfOk result (λ end. RunsRule
        (meanings tally MayPut MayFail clients.old.items) sub id rule.now object.old.state end
        object.new.state) }
    ensures err { OnErr result (BreaksTurn sub rule.now
        (configuration object.old.state (map tally clients.old.items))
        (configuration object.new.state (map tally clients.new.items))) }
    ensures narrows { Narrows (meanings tally MayPut MayFail clients.old.items)
        (meanings tally MayPut MayFail clients.new.items) }
{
    let transaction = Transaction::begin(alloc, object, sub, rule)?;
    let mut draft = Draft::new(alloc, &rule.kind);
    let ran = run_client(alloc, object, &transaction, clients, &mut draft);
    end_run(object, sub, id, rule, transaction, &mut draft, ran)
}

// A turn of a rule: it is excluded where a precondition is held with the wrong value; else its client is run.
fn take_turn(
    alloc: Global,
    object: &mut Object,
    sub: Option<u8>,
    id: RuleId,
    rule: &Rule,
    clients: &mut Vec<Box<dyn Client>>,
) -> Result<RoundEnd, AllocError>
    requires there { IsTrue (has_client rule.now.kind (map tally clients.old.items)) }
    requires rule { IsRule rule.now }
    requires place { HasPlace sub object.old.state }
    requires dimension { IsTrue (is_held ConeAmbientDim object.old.state.held) }
    requires enabled { IsEnabled (table sub object.old.state.of) []
        (held_names sub object.old.state) id rule.now }
    ensures ok { IfOk result (λ end. TakesTurn
        (meanings tally MayPut MayFail clients.old.items) sub id rule.now
        (configuration object.old.state (map tally clients.old.items)) end
        (configuration object.new.state (map tally clients.new.items))) }
    ensures err { OnErr result (BreaksTurn sub rule.now
        (configuration object.old.state (map tally clients.old.items))
        (configuration object.new.state (map tally clients.new.items))) }
    ensures narrows { Narrows (meanings tally MayPut MayFail clients.old.items)
        (meanings tally MayPut MayFail clients.new.items) }
{
    // Its values have their forms.
    let _of = object.of();
    let Some(p) = first_wrong(rule, object, sub) else {
        return run_rule(alloc, object, sub, id, rule, clients);
    };
    object.exclude(Excluded {
        rule: id,
        sub: place_of_rule(sub, rule),
        why: Why::False(p),
    })?;
    Ok(RoundEnd::False(id, p))
}

// The turns of a chain's rules, until one ends the round.
fn follow_chain(
    alloc: Global,
    object: &mut Object,
    rules: &[Rule],
    sub: Option<u8>,
    chain: &[RuleId],
    clients: &mut Vec<Box<dyn Client>>,
) -> Result<RoundEnd, AllocError>
    requires book { IsBook rules.now }
    requires place { HasPlace sub object.old.state }
    requires dimension { IsTrue (is_held ConeAmbientDim object.old.state.held) }
    requires may { MayFollow rules.now sub chain.now
        (configuration object.old.state (map tally clients.old.items)) }
    ensures ok { IfOk result (λ end. FollowsChain
        (meanings tally MayPut MayFail clients.old.items) rules.now sub chain.now
        (configuration object.old.state (map tally clients.old.items)) end
        (configuration object.new.state (map tally clients.new.items))) }
    ensures dimension { OnOk result (IsTrue (is_held ConeAmbientDim object.new.state.held)) }
    ensures err { OnErr result ((asked : PropSet) → ReachesInPart
        (meanings tally MayPut MayFail clients.old.items) rules.now sub asked
        (turns chain.now chain.now)
        (configuration object.old.state (map tally clients.old.items))
        (configuration object.new.state (map tally clients.new.items))) }
    ensures narrows { Narrows (meanings tally MayPut MayFail clients.old.items)
        (meanings tally MayPut MayFail clients.new.items) }
{
    for id in chain {
        let rule = &rules[usize::from(id.0)];
        let end = take_turn(alloc, object, sub, *id, rule, clients)?;
        let RoundEnd::Done = end else {
            return Ok(end);
        };
    }
    Ok(RoundEnd::Done)
}

// A round of a chain, and its writing down.
fn run_round(
    alloc: Global,
    object: &mut Object,
    rules: &[Rule],
    sub: Option<u8>,
    chain: Vec<RuleId>,
    weight: Cost,
    clients: &mut Vec<Box<dyn Client>>,
) -> Result<(), AllocError>
    requires book { IsBook rules.now }
    requires place { HasPlace sub object.old.state }
    requires dimension { IsTrue (is_held ConeAmbientDim object.old.state.held) }
    requires weighs { weight ≡ weigh rules.now chain.items }
    requires may { MayFollow rules.now sub chain.items
        (configuration object.old.state (map tally clients.old.items)) }
    ensures ok { OnOk result (RunsRound
        (meanings tally MayPut MayFail clients.old.items) rules.now sub chain.items
        (configuration object.old.state (map tally clients.old.items))
        (configuration object.new.state (map tally clients.new.items))) }
    ensures err { OnErr result ((asked : PropSet) → ReachesInPart
        (meanings tally MayPut MayFail clients.old.items) rules.now sub asked
        (turns chain.items chain.items)
        (configuration object.old.state (map tally clients.old.items))
        (configuration object.new.state (map tally clients.new.items))) }
    ensures narrows { Narrows (meanings tally MayPut MayFail clients.old.items)
        (meanings tally MayPut MayFail clients.new.items) }
{
    let end = follow_chain(alloc, object, rules, sub, &chain, clients)?;
    let round = Round {
        sub,
        weight,
        chain,
        end,
    };
    object.add_round(round)?;
    Ok(())
}

// Starts a round of a least chain for what is still missing; or says why there is none.
fn next_round(
    alloc: Global,
    object: &mut Object,
    book: &Book,
    sub: Option<u8>,
    asked: PropSet,
    clients: &mut Vec<Box<dyn Client>>,
) -> Result<Option<Ending>, AllocError>
    requires place { HasPlace sub object.old.state }
    requires dimension { IsTrue (is_held ConeAmbientDim object.old.state.held) }
    requires missing { AllHeld sub asked object.old.state → ⊥ }
    ensures ok { IfOk result (λ ending. NextRound
        (meanings tally MayPut MayFail clients.old.items) book.now sub asked ending
        (configuration object.old.state (map tally clients.old.items))
        (configuration object.new.state (map tally clients.new.items))) }
    ensures err { OnErr result (ReachesInPart
        (meanings tally MayPut MayFail clients.old.items) book.now sub asked at_rest
        (configuration object.old.state (map tally clients.old.items))
        (configuration object.new.state (map tally clients.new.items))) }
    ensures narrows { Narrows (meanings tally MayPut MayFail clients.old.items)
        (meanings tally MayPut MayFail clients.new.items) }
{
    let rules = book.rules();
    let barred = barred_rules(alloc, rules, clients, object, sub)?;
    let names = table(sub, object.of());
    let held = object.names(sub);
    let missing = asked.difference(held);
    match plan(alloc, book, names, held, &barred, missing) {
        Ok(
            Plan {
                chain,
                weight,
                table: _,
            },
        ) => {
            run_round(alloc, object, rules, sub, chain, weight, clients)?;
            Ok(None)
        }
        Err(PlanEnd::NoChain(_)) => Ok(Some(Ending::NoChain)),
        Err(PlanEnd::Crowded(_)) => Ok(Some(Ending::Crowded)),
        Err(PlanEnd::Memory) => Err(AllocError),
    }
}

/// Settles the object, and starts rounds for who asks this program of it, if one is asked, until what is asked is
/// held, or no chain leads there, or too many sets of names cost less.
pub fn ensure(
    alloc: Global,
    object: &mut Object,
    book: &Book,
    sub: Option<u8>,
    asked: PropSet,
    clients: &mut Vec<Box<dyn Client>>,
) -> Result<Ending, AllocError>
    requires place { HasPlace sub object.old.state }
    ensures ok { IfOk result (λ ending. Ensured
        (meanings tally MayPut MayFail clients.old.items) book.now sub asked ending
        (configuration object.old.state (map tally clients.old.items))
        (configuration object.new.state (map tally clients.new.items))) }
    ensures err { OnErr result (EnsuredInPart
        (meanings tally MayPut MayFail clients.old.items) book.now sub asked
        (configuration object.old.state (map tally clients.old.items))
        (configuration object.new.state (map tally clients.new.items))) }
    ensures narrows { Narrows (meanings tally MayPut MayFail clients.old.items)
        (meanings tally MayPut MayFail clients.new.items) }
{
    object.settle(alloc)?;
    while !asked.is_subset(object.names(sub)) {
        if let Some(ending) = next_round(alloc, object, book, sub, asked, clients)? {
            return Ok(ending);
        }
    }
    Ok(Ending::Found)
}
