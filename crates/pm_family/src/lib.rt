//! Families of standard clients. A client of a family counts its starts, and hands the work on to the family. It
//! knows nothing of rounds, commands and sessions.
#![tactic(auto)]

ghost use Rattle.pm_client.specs.Sound.{FailsRightly, IsSound};
ghost use Rattle.pm_client.specs.Starts.{next_count, started_once};
ghost use Rattle.pm_client.specs.declared.ClientFail.{ClientFail};
ghost use Rattle.pm_object.specs.Reading.{DraftSeen, ViewSeen};
ghost use Rattle.pm_standard.specs.Table.{standard_kind};
ghost use Rattle.pm_standard.specs.declared.standard.StandardClient.{StandardClient};
ghost use Rattle.std.specs.Prelude.{IfErr, OnOk, [], ◌≡◌};

use pm_client::{Client, ClientFail};
use pm_object::{Draft, View};
use pm_standard::StandardClient;
use pm_types::Kind;
use std::alloc::Global;
use std::marker::PhantomData;

/// Some of the standard clients, and what each of them does.
pub trait Family: Drop {
    /// What a client of the family does: one value for each of them.
    type Work: Copy;

    // The standard client that does the work.
    ghost client_of: { Self.Work → StandardClient };

    // What is so of the view and of what is put where a client answers.
    ghost Stays: { Self.Work → ViewSeen → DraftSeen → Type 0 };

    // How a client fails.
    ghost Fails: { Self.Work → ViewSeen → ClientFail → Type 0 };

    /// The standard client that does the work.
    fn client(work: Self::Work) -> StandardClient
        ensures { result ≡ client_of work };

    /// Puts the targets of the client of this work into an empty draft, or says why not.
    fn answer(
        work: Self::Work,
        alloc: Global,
        view: &View,
        draft: &mut Draft,
    ) -> Result<(), ClientFail>
        requires kind { view.now.kind ≡ standard_kind (client_of work) }
        requires empty { draft.old ≡ record { kind = view.now.kind; values = [] } }
        ensures draft { draft.new.kind ≡ draft.old.kind }
        ensures sound { OnOk result (IsSound view.now draft.new) }
        ensures failed { IfErr result (FailsRightly view.now) }
        ensures stays { OnOk result (Stays work view.now draft.new) }
        ensures fails { IfErr result (Fails work view.now) };
}

/// A client of a family, which counts its starts. Its kind is found once, when it is made.
#[derive(Drop)]
pub struct FamilyClient<F: Family> {
    work: F::Work,
    kind: Kind,
    starts: u64,
    family: PhantomData<F>,
    ghost of_work: { kind ≡ standard_kind (F.client_of work) },
}

impl<F: Family> FamilyClient<F> {
    /// The client that does the work. It was never started.
    pub fn new(work: F::Work) -> FamilyClient<F>
        ensures { ⟦<FamilyClient<F> as Client>⟧.tally result ≡ (standard_kind (F.client_of work), 0) }
    {
        FamilyClient {
            work,
            kind: F::client(work).kind(),
            starts: 0,
            family: PhantomData,
        }
    }

    // Counts one start more.
    fn count_start(&mut self)
        ensures count { self.new.starts ≡ next_count self.old.starts }
        ensures work { self.new.work ≡ self.old.work }
    {
        self.starts = self.starts.saturating_add(1);
    }
}

impl<F: Family> Client for FamilyClient<F> {
    ghost use Rattle.pm_standard.specs.Table.{standard_kind};

    ghost tally = { λ c. (standard_kind (F.client_of c.work), c.starts) };

    ghost MayPut = { λ c v d. F.Stays c.work v d };

    ghost MayFail = { λ c v f. F.Fails c.work v f };

    fn kind(&self) -> Kind {
        self.kind
    }

    fn starts(&self) -> u64 {
        self.starts
    }

    fn run(&mut self, alloc: Global, view: &View, draft: &mut Draft) -> Result<(), ClientFail>
        requires kind { view.now.kind ≡ standard_kind (F.client_of self.old.work) }
        requires empty { draft.old ≡ record { kind = view.now.kind; values = [] } }
        ensures started { (standard_kind (F.client_of self.new.work), self.new.starts)
            ≡ started_once (standard_kind (F.client_of self.old.work), self.old.starts) }
        ensures draft { draft.new.kind ≡ draft.old.kind }
        ensures sound { OnOk result (IsSound view.now draft.new) }
        ensures failed { IfErr result (FailsRightly view.now) }
        ensures gives { OnOk result (F.Stays self.old.work view.now draft.new) }
        ensures fails { IfErr result (F.Fails self.old.work view.now) }
        ensures gives_later { (v : ViewSeen) (d : DraftSeen) → F.Stays self.new.work v d → F.Stays self.old.work v d }
        ensures fails_later { (v : ViewSeen) (f : ClientFail) → F.Fails self.new.work v f → F.Fails self.old.work v f }
    {
        self.count_start();
        F::answer(self.work, alloc, view, draft)
    }
}
