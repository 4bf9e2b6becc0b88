// The clients that find faces, and count them.

ghost use Rattle.pm_client.specs.Sound.{FailsRightly, IsSound};
ghost use Rattle.pm_client.specs.declared.ClientFail.TheVariants.{Memory};
ghost use Rattle.pm_clients_faces.specs.Faces.{FailsForMany, HasFewFaces};
ghost use Rattle.pm_standard.specs.Table.{standard_kind};
ghost use Rattle.pm_standard.specs.declared.standard.StandardClient.TheVariants as client;
ghost use Rattle.std.specs.Prelude.{IfErr, OnOk, [], ◌≡◌};

use crate::numbers::{f_numbers, f2_table, h_numbers};
use pm_client::{ClientFail, counts_of, lattice_of, put_value, sets_of, whole_of};
use pm_family::{Family, FamilyClient};
use pm_lattice::faces;
use pm_object::{Draft, View};
use pm_standard::StandardClient;
use pm_types::{Counts, ObjectType, PropId, Value};
use std::alloc::Global;

/// The works of the clients that find faces, and count them.
#[derive(Clone, Copy, PartialEq, Eq)]
pub enum FacesWork {
    Faces,
    FVector,
    F2Vector,
    HVector,
}

/// The standard clients that find faces, and count them.
#[derive(Drop)]
pub struct FacesFamily;

/// A client that finds faces or numbers of faces. But for want of memory only `faces` fails, and it does so exactly
/// where there are more faces than a lattice may have. A lattice of more than 34 ranks is that of no thing, since a
/// thing has at most 33 columns; then `f_vector` and `f2_vector` put the empty list and the empty matrix.
pub type FaceClient = FamilyClient<FacesFamily>;

impl Family for FacesFamily {
    ghost use Rattle.pm_clients_faces.specs.Works.{FacesFail, FacesStay, faces_client};

    type Work = FacesWork;

    ghost client_of = { faces_client };

    ghost Stays = { λ w v _. FacesStay w v };

    ghost Fails = { FacesFail };

    fn client(work: FacesWork) -> StandardClient {
        match work {
            FacesWork::Faces => StandardClient::Faces,
            FacesWork::FVector => StandardClient::FVector,
            FacesWork::F2Vector => StandardClient::F2Vector,
            FacesWork::HVector => StandardClient::HVector,
        }
    }

    fn answer(
        work: FacesWork,
        alloc: Global,
        view: &View,
        draft: &mut Draft,
    ) -> Result<(), ClientFail> {
        match work {
            FacesWork::Faces => hasse_diagram(alloc, view, draft),
            FacesWork::FVector => f_vector(alloc, view, draft),
            FacesWork::F2Vector => f2_vector(alloc, view, draft),
            FacesWork::HVector => h_vector(alloc, view, draft),
        }
    }
}

// HASSE_DIAGRAM: the intersections of the sets of VERTICES_IN_FACETS, by rank.
fn hasse_diagram(alloc: Global, view: &View, draft: &mut Draft) -> Result<(), ClientFail>
    requires kind { view.now.kind ≡ standard_kind client.Faces }
    requires empty { draft.old ≡ record { kind = view.now.kind; values = [] } }
    ensures draft { draft.new.kind ≡ draft.old.kind }
    ensures sound { OnOk result (IsSound view.now draft.new) }
    ensures stays { OnOk result (HasFewFaces view.now) }
    ensures failed { IfErr result (FailsRightly view.now) }
    ensures fails { IfErr result (FailsForMany view.now) }
{
    prove!(view.of() != ObjectType::Fan);
    let lattice = faces(alloc, sets_of(view, PropId::VerticesInFacets))?;
    put_value(draft, PropId::HasseDiagram, Value::Lattice(lattice))?;
    Ok(())
}

// F_VECTOR: how many faces each rank of HASSE_DIAGRAM has, but the first and the last.
fn f_vector(alloc: Global, view: &View, draft: &mut Draft) -> Result<(), ClientFail>
    requires kind { view.now.kind ≡ standard_kind client.FVector }
    requires empty { draft.old ≡ record { kind = view.now.kind; values = [] } }
    ensures draft { draft.new.kind ≡ draft.old.kind }
    ensures sound { OnOk result (IsSound view.now draft.new) }
    ensures failed { IfErr result (λ e. e ≡ Memory) }
{
    prove!(view.of() != ObjectType::Fan);
    let counts = f_numbers(alloc, lattice_of(view, PropId::HasseDiagram))?;
    put_value(
        draft,
        PropId::FVector,
        Value::Counts(Counts::from_vec(counts)),
    )?;
    Ok(())
}

// F2_VECTOR: how many pairs of faces of any two of these ranks are included in one another.
fn f2_vector(alloc: Global, view: &View, draft: &mut Draft) -> Result<(), ClientFail>
    requires kind { view.now.kind ≡ standard_kind client.F2Vector }
    requires empty { draft.old ≡ record { kind = view.now.kind; values = [] } }
    ensures draft { draft.new.kind ≡ draft.old.kind }
    ensures sound { OnOk result (IsSound view.now draft.new) }
    ensures failed { IfErr result (λ e. e ≡ Memory) }
{
    prove!(view.of() != ObjectType::Fan);
    let table = f2_table(alloc, lattice_of(view, PropId::HasseDiagram))?;
    put_value(draft, PropId::F2Vector, Value::Mat(table))?;
    Ok(())
}

// H_VECTOR: the h-vector of F_VECTOR, in the dimension COMBINATORIAL_DIM; empty where one of its numbers has more
// than 64 bits.
fn h_vector(alloc: Global, view: &View, draft: &mut Draft) -> Result<(), ClientFail>
    requires kind { view.now.kind ≡ standard_kind client.HVector }
    requires empty { draft.old ≡ record { kind = view.now.kind; values = [] } }
    ensures draft { draft.new.kind ≡ draft.old.kind }
    ensures sound { OnOk result (IsSound view.now draft.new) }
    ensures failed { IfErr result (λ e. e ≡ Memory) }
{
    prove!(view.of() != ObjectType::Fan);
    let numbers = h_numbers(
        alloc,
        counts_of(view, PropId::FVector),
        whole_of(view, PropId::CombinatorialDim),
    )?;
    put_value(draft, PropId::HVector, Value::Counts(numbers))?;
    Ok(())
}
