// The family of the clients of linear programs.

ghost use Rattle.std.specs.Prelude.{◌≡◌};

use crate::faces::face_at_value;
use crate::halves::{value_from_rows, value_with_dual};
use crate::rays::value_from_rays;
use pm_client::ClientFail;
use pm_family::{Family, FamilyClient};
use pm_object::{Draft, View};
use pm_simplex::Sense;
use pm_standard::StandardClient;
use std::alloc::Global;

/// The works of the clients of linear programs, each in either sense.
#[derive(Clone, Copy, PartialEq, Eq)]
pub enum LpWork {
    /// The optimum with a dual, over FACETS.
    OverFacets(Sense),
    /// The optimum over INEQUALITIES.
    OverRows(Sense),
    /// The optimum at VERTICES.
    AtRays(Sense),
    /// The rays at the optimum.
    AtFace(Sense),
    /// The optimum with a dual, over FACETS, by wide numbers.
    OverFacetsWide(Sense),
    /// The optimum over INEQUALITIES, by wide numbers.
    OverRowsWide(Sense),
    /// The optimum at VERTICES, by wide numbers.
    AtRaysWide(Sense),
    /// The rays at the optimum, by wide numbers.
    AtFaceWide(Sense),
}

/// The clients of linear programs over polytopes.
#[derive(Drop)]
pub struct LpFamily;

/// A client of linear programs. It fails for want of memory; the optima over half-spaces where a pivot of their
/// program leaves the range, and those with a dual where a row of the dual does; the others where a product of the
/// objective with a ray or line does, or the optimum, or the row that vanishes at it. A wide one goes on by wide
/// numbers where a pivot, such a product, the optimum or that row leaves the range, and where these do not suffice it
/// fails as the standard one; that of the rays at the optimum fails for want of memory alone.
pub type LpClient = FamilyClient<LpFamily>;

impl Family for LpFamily {
    ghost use Rattle.pm_clients_lp.specs.Clients.{LinearFails, linear_client};

    type Work = LpWork;

    ghost client_of = { linear_client };

    ghost Stays = { λ _ _ _. Unit {0} };

    ghost Fails = { LinearFails };

    fn client(work: LpWork) -> StandardClient {
        match work {
            LpWork::OverFacets(Sense::Maximal) => StandardClient::LpMax,
            LpWork::OverFacets(Sense::Minimal) => StandardClient::LpMin,
            LpWork::OverRows(Sense::Maximal) => StandardClient::LpMaxRows,
            LpWork::OverRows(Sense::Minimal) => StandardClient::LpMinRows,
            LpWork::AtRays(Sense::Maximal) => StandardClient::LpMaxV,
            LpWork::AtRays(Sense::Minimal) => StandardClient::LpMinV,
            LpWork::AtFace(Sense::Maximal) => StandardClient::LpMaxFace,
            LpWork::AtFace(Sense::Minimal) => StandardClient::LpMinFace,
            LpWork::OverFacetsWide(Sense::Maximal) => StandardClient::LpMaxWide,
            LpWork::OverFacetsWide(Sense::Minimal) => StandardClient::LpMinWide,
            LpWork::OverRowsWide(Sense::Maximal) => StandardClient::LpMaxRowsWide,
            LpWork::OverRowsWide(Sense::Minimal) => StandardClient::LpMinRowsWide,
            LpWork::AtRaysWide(Sense::Maximal) => StandardClient::LpMaxVWide,
            LpWork::AtRaysWide(Sense::Minimal) => StandardClient::LpMinVWide,
            LpWork::AtFaceWide(Sense::Maximal) => StandardClient::LpMaxFaceWide,
            LpWork::AtFaceWide(Sense::Minimal) => StandardClient::LpMinFaceWide,
        }
    }

    fn answer(
        work: LpWork,
        alloc: Global,
        view: &View,
        draft: &mut Draft,
    ) -> Result<(), ClientFail> {
        match work {
            LpWork::OverFacets(sense) => value_with_dual(sense, alloc, view, draft, false),
            LpWork::OverRows(sense) => value_from_rows(sense, alloc, view, draft, false),
            LpWork::AtRays(sense) => value_from_rays(sense, alloc, view, draft, false),
            LpWork::AtFace(sense) => face_at_value(sense, alloc, view, draft, false),
            LpWork::OverFacetsWide(sense) => value_with_dual(sense, alloc, view, draft, true),
            LpWork::OverRowsWide(sense) => value_from_rows(sense, alloc, view, draft, true),
            LpWork::AtRaysWide(sense) => value_from_rays(sense, alloc, view, draft, true),
            LpWork::AtFaceWide(sense) => face_at_value(sense, alloc, view, draft, true),
        }
    }
}
