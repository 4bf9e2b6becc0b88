// Boxed clients, and running the first one of a kind.

ghost use Rattle.pm_client.specs.Meanings.{Narrows, meanings};
ghost use Rattle.pm_client.specs.Sound.{FailsRightly, IsSound};
ghost use Rattle.pm_client.specs.Starts.{after_start, has_client, kind_at, place_in, started_at, started_once};
ghost use Rattle.pm_client.specs.declared.ClientFail.{ClientFail};
ghost use Rattle.pm_object.specs.Reading.{DraftSeen, ViewSeen};
ghost use Rattle.std.specs.Prelude.{IfErr, IfSome, IsTrue, OnOk, Some, [], length, map, ◌<◌, ◌≡◌};

use crate::{Client, ClientFail};
use pm_object::{Draft, View};
use pm_types::Kind;
use std::alloc::Global;

// The kind of a boxed client.
fn kind_of_box(client: &Box<dyn Client>) -> Kind
    ensures { result ≡ (tally client.now).0 }
{
    client.kind()
}

// Runs a boxed client.
fn run_box(
    client: &mut Box<dyn Client>,
    alloc: Global,
    view: &View,
    draft: &mut Draft,
) -> Result<(), ClientFail>
    requires kind { view.now.kind ≡ (tally client.old).0 }
    requires empty { draft.old ≡ record { kind = view.now.kind; values = [] } }
    ensures started { tally client.new ≡ started_once (tally client.old) }
    ensures draft { draft.new.kind ≡ draft.old.kind }
    ensures sound { OnOk result (IsSound view.now draft.new) }
    ensures failed { IfErr result (FailsRightly view.now) }
    ensures gives { OnOk result (MayPut client.old view.now draft.new) }
    ensures fails { IfErr result (MayFail client.old view.now) }
    ensures gives_later { (v : ViewSeen) (d : DraftSeen) → MayPut client.new v d → MayPut client.old v d }
    ensures fails_later { (v : ViewSeen) (f : ClientFail) → MayFail client.new v f → MayFail client.old v f }
{
    client.run(alloc, view, draft)
}

// The place of the first client of a kind.
fn place_of(clients: &[Box<dyn Client>], kind: Kind) -> Option<usize>
    ensures place { result ≡ place_in kind 0 (map tally clients.now) }
    ensures within { IfSome result (λ i. i < length clients.now) }
    ensures kind { IfSome result (λ i. kind_at i (map tally clients.now) ≡ Some kind) }
{
    for (i, client) in clients.iter().enumerate() {
        if kind_of_box(client) == kind {
            return Some(i);
        }
    }
    None
}

/// Whether some client is of the kind. Looked at first is the client at the place, which is a guess, and becomes the
/// place after the client that was found.
pub fn has_client(clients: &[Box<dyn Client>], kind: Kind, place: &mut usize) -> bool
    ensures { result ≡ has_client kind (map tally clients.now) }
{
    let at = *place;
    if at < clients.len() && kind_of_box(&clients[at]) == kind {
        *place = at + 1;
        return true;
    }
    match place_of(clients, kind) {
        Some(found) => {
            *place = found + 1;
            true
        }
        None => false,
    }
}

// Runs the client at a place.
fn run_at(
    alloc: Global,
    clients: &mut Vec<Box<dyn Client>>,
    place: usize,
    view: &View,
    draft: &mut Draft,
) -> Result<(), ClientFail>
    requires place { place < length clients.old.items }
    requires kind { kind_at place (map tally clients.old.items) ≡ Some view.now.kind }
    requires empty { draft.old ≡ record { kind = view.now.kind; values = [] } }
    ensures started { map tally clients.new.items ≡ started_at place (map tally clients.old.items) }
    ensures draft { draft.new.kind ≡ draft.old.kind }
    ensures sound { OnOk result (IsSound view.now draft.new) }
    ensures failed { IfErr result (FailsRightly view.now) }
    ensures gives { OnOk result
        ((meanings tally MayPut MayFail clients.old.items).Gives view.now draft.new) }
    ensures fails { IfErr result ((meanings tally MayPut MayFail clients.old.items).Fails view.now) }
    ensures narrows { Narrows (meanings tally MayPut MayFail clients.old.items)
        (meanings tally MayPut MayFail clients.new.items) }
{
    run_box(&mut clients[place], alloc, view, draft)
}

/// Runs the first client of the view's kind.
pub fn run_first(
    alloc: Global,
    clients: &mut Vec<Box<dyn Client>>,
    view: &View,
    draft: &mut Draft,
) -> Result<(), ClientFail>
    requires there { IsTrue (has_client view.now.kind (map tally clients.old.items)) }
    requires empty { draft.old ≡ record { kind = view.now.kind; values = [] } }
    ensures started { map tally clients.new.items
        ≡ after_start view.now.kind (map tally clients.old.items) }
    ensures draft { draft.new.kind ≡ draft.old.kind }
    ensures sound { OnOk result (IsSound view.now draft.new) }
    ensures failed { IfErr result (FailsRightly view.now) }
    ensures gives { OnOk result
        ((meanings tally MayPut MayFail clients.old.items).Gives view.now draft.new) }
    ensures fails { IfErr result ((meanings tally MayPut MayFail clients.old.items).Fails view.now) }
    ensures narrows { Narrows (meanings tally MayPut MayFail clients.old.items)
        (meanings tally MayPut MayFail clients.new.items) }
{
    let Some(place) = place_of(clients, view.kind()) else {
        unreachable!()
    };
    run_at(alloc, clients, place, view, draft)
}
