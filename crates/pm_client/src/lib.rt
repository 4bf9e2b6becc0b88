//! Clients, which answer properties of an object from others, and running the first client of a kind. It knows
//! nothing of rounds, commands and sessions.
#![tactic(auto)]

ghost use Rattle.pm_client.specs.Examples.{CellsAreRead, ConesAreRead, DoublesAreRead, FailsAreRead, LatticesAreRead, OptimaAreRead, ProgramsAreRead, RowListsAreRead, StartsAreRead, ThinningIsRead};
ghost use Rattle.pm_client.specs.ForeignExamples.{ForeignsAreRead};
ghost use Rattle.pm_client.specs.MeaningExamples.{MeaningsAreRead};
ghost use Rattle.pm_client.specs.Sound.{FailsRightly, IsSound};
ghost use Rattle.pm_client.specs.Starts.{started_once};
ghost use Rattle.pm_client.specs.declared.ClientFail.{ClientFail};
ghost use Rattle.pm_object.specs.Reading.{DraftSeen, ViewSeen};
ghost use Rattle.std.specs.Prelude.{IfErr, OnOk, [], ℕ, ◌≡◌};

use pm_dd::DdFail;
use pm_elim::ElimFail;
use pm_geom::Evidence;
use pm_incidence::{IncFail, ThinFail};
use pm_lattice::LatticeFail;
use pm_object::{Draft, View};
use pm_simplex::LpFail;
use pm_types::Kind;
use std::alloc::{AllocError, AllocFailed, Global};

mod boxes;
mod values;

pub use boxes::{has_client, run_first};
pub use values::{
    counts_of, edges_of, lattice_of, matrix_of, number_of, primitive_rows, put_value, sets_of,
    whole_of,
};

/// Why a client did not answer.
#[derive(Drop)]
pub enum ClientFail {
    /// Memory was wanting.
    Memory,
    /// The evidence shows why it cannot answer.
    Failed(Evidence),
}

impl From<ElimFail> for ClientFail {
    ghost use Rattle.pm_client.specs.Sound.{fail_of};
    ghost use Rattle.std.specs.Prelude.{◌≡◌};

    ghost from_gives = { λ f e. e ≡ fail_of f };

    fn from(fail: ElimFail) -> ClientFail {
        match fail {
            ElimFail::Wide(step) => ClientFail::Failed(Evidence::E1(step)),
            ElimFail::Memory => ClientFail::Memory,
        }
    }
}

impl From<DdFail> for ClientFail {
    ghost use Rattle.pm_client.specs.Sound.{fail_of_double};
    ghost use Rattle.std.specs.Prelude.{◌≡◌};

    ghost from_gives = { λ f e. e ≡ fail_of_double f };

    fn from(fail: DdFail) -> ClientFail {
        match fail {
            DdFail::Wide(evidence) => ClientFail::Failed(evidence),
            DdFail::Many(evidence) => ClientFail::Failed(evidence),
            DdFail::Memory => ClientFail::Memory,
        }
    }
}

impl From<IncFail> for ClientFail {
    ghost use Rattle.pm_client.specs.Sound.{fail_of_incidence};
    ghost use Rattle.std.specs.Prelude.{◌≡◌};

    ghost from_gives = { λ f e. e ≡ fail_of_incidence f };

    fn from(fail: IncFail) -> ClientFail {
        match fail {
            IncFail::Wide(evidence) => ClientFail::Failed(evidence),
            IncFail::Memory => ClientFail::Memory,
        }
    }
}

impl From<ThinFail> for ClientFail {
    ghost use Rattle.pm_client.specs.Sound.{fail_of_thin};
    ghost use Rattle.std.specs.Prelude.{◌≡◌};

    ghost from_gives = { λ f e. e ≡ fail_of_thin f };

    fn from(fail: ThinFail) -> ClientFail {
        match fail {
            ThinFail::Wide(evidence) => ClientFail::Failed(evidence),
            ThinFail::Many(evidence) => ClientFail::Failed(evidence),
            ThinFail::Memory => ClientFail::Memory,
        }
    }
}

impl From<LpFail> for ClientFail {
    ghost use Rattle.pm_client.specs.Sound.{fail_of_program};
    ghost use Rattle.std.specs.Prelude.{◌≡◌};

    ghost from_gives = { λ f e. e ≡ fail_of_program f };

    fn from(fail: LpFail) -> ClientFail {
        match fail {
            LpFail::Wide(evidence) => ClientFail::Failed(evidence),
            LpFail::Memory => ClientFail::Memory,
        }
    }
}

impl From<LatticeFail> for ClientFail {
    ghost use Rattle.pm_client.specs.Sound.{fail_of_lattice};
    ghost use Rattle.std.specs.Prelude.{◌≡◌};

    ghost from_gives = { λ f e. e ≡ fail_of_lattice f };

    fn from(fail: LatticeFail) -> ClientFail {
        match fail {
            LatticeFail::Many(evidence) => ClientFail::Failed(evidence),
            LatticeFail::Memory => ClientFail::Memory,
        }
    }
}

impl From<AllocError> for ClientFail {
    ghost use Rattle.pm_client.specs.declared.ClientFail.TheVariants.{Memory};

    ghost from_gives = { λ _ e. e ≡ Memory };

    fn from(_error: AllocError) -> ClientFail {
        ClientFail::Memory
    }
}

impl<T: Drop> From<AllocFailed<T>> for ClientFail {
    ghost use Rattle.pm_client.specs.declared.ClientFail.TheVariants.{Memory};

    ghost from_gives = { λ _ e. e ≡ Memory };

    fn from(_error: AllocFailed<T>) -> ClientFail {
        ClientFail::Memory
    }
}

/// A client: it answers the targets of its kind from the sources, and counts its starts.
pub trait Client: Drop {
    ghost use Rattle.pm_client.specs.declared.ClientFail.{ClientFail};
    ghost use Rattle.pm_object.specs.Reading.{DraftSeen, ViewSeen};
    ghost use Rattle.pm_props.specs.declared.kind.Kind.{Kind};

    // Its kind, and how often it was started.
    ghost tally: { Self → Kind × ℕ };

    // What it may put into an empty draft where it reads this view, beyond being sound; by default anything.
    ghost MayPut: { Self → ViewSeen → DraftSeen → Type 0 } = { λ _ v d. Unit {0} };

    // How it may fail there, beyond its evidence; by default in any way.
    ghost MayFail: { Self → ViewSeen → ClientFail → Type 0 } = { λ _ v f. Unit {0} };

    /// What it answers, and from what.
    fn kind(&self) -> Kind
        ensures { result ≡ (tally self.now).0 };

    /// How often it was started, up to the greatest number of 64 bits.
    fn starts(&self) -> u64
        ensures { result ≡ (tally self.now).1 };

    /// Puts the targets into an empty draft, or says why not.
    fn run(&mut self, alloc: Global, view: &View, draft: &mut Draft) -> Result<(), ClientFail>
        requires kind { view.now.kind ≡ (tally self.old).0 }
        requires empty { draft.old ≡ record { kind = view.now.kind; values = [] } }
        ensures started { tally self.new ≡ started_once (tally self.old) }
        ensures draft { draft.new.kind ≡ draft.old.kind }
        ensures sound { OnOk result (IsSound view.now draft.new) }
        ensures failed { IfErr result (FailsRightly view.now) }
        ensures gives { OnOk result (MayPut self.old view.now draft.new) }
        ensures fails { IfErr result (MayFail self.old view.now) }
        ensures gives_later { (v : ViewSeen) (d : DraftSeen) → MayPut self.new v d → MayPut self.old v d }
        ensures fails_later { (v : ViewSeen) (f : ClientFail) → MayFail self.new v f → MayFail self.old v f };
}

/// The definitions of starts read on three clients.
pub fn example_starts()
    ensures { StartsAreRead }
{}

/// The definitions of row lists read on some properties.
pub fn example_row_lists()
    ensures { RowListsAreRead }
{}

/// The definitions of what is eliminated read on a view without rows.
pub fn example_doubles()
    ensures { DoublesAreRead }
{}

/// The definitions of thinning and of rows from sets read on a view without rows.
pub fn example_thinning()
    ensures { ThinningIsRead }
{}

/// The definitions of linear programs read on views without rows.
pub fn example_programs()
    ensures { ProgramsAreRead }
{}

/// The definitions of optima of linear programs read on a view without rows.
pub fn example_optima()
    ensures { OptimaAreRead }
{}

/// Which rows span a maximal cone of a fan.
pub fn example_cones()
    ensures { ConesAreRead }
{}

/// The definitions of too many faces read on views with sets and without.
pub fn example_lattices()
    ensures { LatticesAreRead }
{}

/// The definitions of too many cells read on views without rows.
pub fn example_cells()
    ensures { CellsAreRead }
{}

/// Which failures are with evidence, and which with evidence of a number out of the range.
pub fn example_fails()
    ensures { FailsAreRead }
{}

/// How clients of one's own may fail, whose name no rule has.
pub fn example_foreigns()
    ensures { ForeignsAreRead }
{}

/// What clients of a kind may put, and how they may fail.
pub fn example_meanings()
    ensures { MeaningsAreRead }
{}
