// The clients that lift sites: the cells of the regular subdivision that heights induce, and Delaunay cells.

ghost use Rattle.pm_client.specs.Fails.{IfOutOfRange};
ghost use Rattle.pm_client.specs.Sound.{FailsRightly, IsSound, ReadsHeights};
ghost use Rattle.pm_client.specs.declared.ClientFail.TheVariants.{Memory};
ghost use Rattle.pm_clients_lift.specs.LiftedSites.{AreCellsPut, AreDelaunayPut, AreReadSites, LiftsSites, RaisesSites, ReadsLostDelaunaySites, ReadsLostSites, fail_of_lift};
ghost use Rattle.pm_fraction.specs.Matrices.{IsFraction};
ghost use Rattle.pm_object.specs.Reading.{IsView};
ghost use Rattle.pm_props.specs.Sets.{has, set_of};
ghost use Rattle.pm_props.specs.declared.property.PropId.TheVariants as property;
ghost use Rattle.std.specs.Prelude.{All, IfErr, IfOk, IsTrue, OnOk, [], length, map, true, ◌∷◌, ◌≡◌, ◌≤◌};
ghost use Rattle.pm_limits.specs.Limits.{most_rows};

use pm_client::{ClientFail, matrix_of, primitive_rows, put_value};
use pm_family::{Family, FamilyClient};
use pm_fraction::Fraction;
use pm_lift::LiftFail;
use pm_object::{Draft, View};
use pm_standard::StandardClient;
use pm_types::{PropId, Sets, Value};
use pm_vector::Ints;
use std::alloc::Global;

/// The works of the clients that lift sites.
#[derive(Clone, Copy, PartialEq, Eq)]
pub enum LiftWork {
    RegularCells,
    Delaunay,
    RegularCellsWide,
    DelaunayWide,
}

/// The clients that lift sites.
#[derive(Drop)]
pub struct LiftFamily;

/// A client that lifts sites (Ziegler, Lectures on Polytopes, section 5.1). It fails for want of memory, where a step
/// leaves the range, and where a cone on the way has too many facets. A wide one fails for a step that leaves the range
/// only where besides no row in the range is the lifted row of some site, or double description of the lifted rows is
/// lost by wide numbers.
pub type LiftClient = FamilyClient<LiftFamily>;

impl Family for LiftFamily {
    ghost use Rattle.pm_clients_lift.specs.Works.{LiftFails, lift_client};

    type Work = LiftWork;

    ghost client_of = { lift_client };

    ghost Stays = { λ _ _ _. Unit {0} };

    ghost Fails = { LiftFails };

    fn client(work: LiftWork) -> StandardClient {
        match work {
            LiftWork::RegularCells => StandardClient::RegularCells,
            LiftWork::Delaunay => StandardClient::Delaunay,
            LiftWork::RegularCellsWide => StandardClient::RegularCellsWide,
            LiftWork::DelaunayWide => StandardClient::DelaunayWide,
        }
    }

    fn answer(
        work: LiftWork,
        alloc: Global,
        view: &View,
        draft: &mut Draft,
    ) -> Result<(), ClientFail> {
        match work {
            LiftWork::RegularCells => put_regular_cells(alloc, view, draft, false),
            LiftWork::Delaunay => put_delaunay_cells(alloc, view, draft, false),
            LiftWork::RegularCellsWide => put_regular_cells(alloc, view, draft, true),
            LiftWork::DelaunayWide => put_delaunay_cells(alloc, view, draft, true),
        }
    }
}

// The failure of a client whose cells were refused.
fn client_fail(fail: LiftFail) -> ClientFail
    ensures { result ≡ fail_of_lift fail }
{
    match fail {
        LiftFail::Wide(evidence) => ClientFail::Failed(evidence),
        LiftFail::Many(evidence) => ClientFail::Failed(evidence),
        LiftFail::Memory => ClientFail::Memory,
    }
}

// The sites that the view reads, as primitive whole rows. Want of memory alone ends it.
fn read_sites(alloc: Global, view: &View) -> Result<Vec<Ints>, ClientFail>
    requires { IsTrue (has view.now.kind.sources property.Sites) }
    ensures read { IfOk result (λ s. AreReadSites view.now s.items) }
    ensures failed { IfErr result (λ e. e ≡ Memory) }
{
    let sites = primitive_rows(alloc, matrix_of(view, PropId::Sites))?;
    Ok(sites)
}

// The heights that the view reads.
fn read_heights<'b>(view: &'b View<'_>) -> &'b [Fraction]
    requires { IsTrue (has view.now.kind.sources property.SiteHeights) }
    ensures read { ReadsHeights view.now result.now }
    ensures fractions { All IsFraction result.now }
{
    matrix_of(view, PropId::SiteHeights).row(0)
}

// The cells as sets of places of sites.
fn as_sets(cells: Vec<Vec<u32>>, sites: &[Ints]) -> Sets
    requires { length sites.now ≤ most_rows }
    ensures { result ≡ record { rows = map (λ s. s.items) cells.items; cols = length sites.now } }
{
    Sets::from_vec(cells, sites.len() as u32)
}

// The cells of the sites with their heights; none where there are more or fewer heights than sites, as no thing has.
fn regular_cells(alloc: Global, view: &View, wide: bool) -> Result<Sets, ClientFail>
    requires { LiftsSites view.now.kind }
    ensures cells { IfOk result (AreCellsPut view.now) }
    ensures failed { IfErr result (FailsRightly view.now) }
    ensures lost { wide ≡ true → IfErr result (λ e. IfOutOfRange e (ReadsLostSites view.now)) }
{
    let heights = read_heights(view);
    let sites = read_sites(alloc, view)?;
    if heights.len() != sites.len() {
        return Ok(Sets::from_vec(Vec::new(alloc), 0));
    }
    match pm_lift::regular_cells(alloc, view.cols(), &sites, heights, wide) {
        Ok(cells) => Ok(as_sets(cells, &sites)),
        Err(fail) => Err(client_fail(fail)),
    }
}

// The Delaunay cells of the sites.
fn delaunay_cells(alloc: Global, view: &View, wide: bool) -> Result<Sets, ClientFail>
    requires { RaisesSites view.now.kind }
    ensures cells { IfOk result (AreDelaunayPut view.now) }
    ensures failed { IfErr result (FailsRightly view.now) }
    ensures lost { wide ≡ true → IfErr result (λ e. IfOutOfRange e (ReadsLostDelaunaySites view.now)) }
{
    let sites = read_sites(alloc, view)?;
    match pm_lift::delaunay_cells(alloc, view.cols(), &sites, wide) {
        Ok(cells) => Ok(as_sets(cells, &sites)),
        Err(fail) => Err(client_fail(fail)),
    }
}

// REGULAR_CELLS of SITES with SITE_HEIGHTS.
fn put_regular_cells(
    alloc: Global,
    view: &View,
    draft: &mut Draft,
    wide: bool,
) -> Result<(), ClientFail>
    requires kind { LiftsSites view.now.kind }
    requires targets { view.now.kind.targets ≡ set_of (property.RegularCells ∷ []) }
    requires empty { draft.old ≡ record { kind = view.now.kind; values = [] } }
    ensures draft { draft.new.kind ≡ draft.old.kind }
    ensures sound { OnOk result (IsSound view.now draft.new) }
    ensures failed { IfErr result (FailsRightly view.now) }
    ensures lost { wide ≡ true → IfErr result (λ e. IfOutOfRange e (ReadsLostSites view.now)) }
{
    let cells = regular_cells(alloc, view, wide)?;
    put_value(draft, PropId::RegularCells, Value::Sets(cells))?;
    Ok(())
}

// DELAUNAY_CELLS of SITES.
fn put_delaunay_cells(
    alloc: Global,
    view: &View,
    draft: &mut Draft,
    wide: bool,
) -> Result<(), ClientFail>
    requires kind { RaisesSites view.now.kind }
    requires targets { view.now.kind.targets ≡ set_of (property.DelaunayCells ∷ []) }
    requires empty { draft.old ≡ record { kind = view.now.kind; values = [] } }
    ensures draft { draft.new.kind ≡ draft.old.kind }
    ensures sound { OnOk result (IsSound view.now draft.new) }
    ensures failed { IfErr result (FailsRightly view.now) }
    ensures lost { wide ≡ true → IfErr result (λ e. IfOutOfRange e (ReadsLostDelaunaySites view.now)) }
{
    let cells = delaunay_cells(alloc, view, wide)?;
    put_value(draft, PropId::DelaunayCells, Value::Sets(cells))?;
    Ok(())
}
