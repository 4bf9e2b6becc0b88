// Which tables prove what is claimed of chains.

use pm_books::read_book;
use pm_cert::verify;
use pm_plan::plan;
use pm_props::{ObjectType, PropId, PropSet};
use pm_rules::{Book, Claim, Cost, RuleId, Table, TableRow};
use pm_standard::{standard_book, standard_kinds};
use std::alloc::Global;
use std::process::Abort;

// Every name that an object of a type may have.
fn names_of(of: ObjectType) -> PropSet {
    let mut names = PropSet::empty();
    for p in PropId::every() {
        if p.is_in(of) {
            names = names.with(p);
        }
    }
    names
}

// Every name that a polytope may have.
fn names() -> PropSet {
    names_of(ObjectType::Polytope)
}

// Whether a table proves a claim of the chains from vertices and facets to incidences, for which there is a rule of
// weight 5.
fn is_proved(book: &Book, barred: &[RuleId], table: &Table, claim: Claim) -> bool {
    let held = PropSet::of_list(&[PropId::Vertices, PropId::Facets]);
    let asked = PropSet::of(PropId::VerticesInFacets);
    verify(book, names(), held, barred, asked, table, claim)
}

// The claim that no chain weighs less.
fn least(minor: u64) -> Claim {
    Claim::Least(Cost { class: 0, minor })
}

#[test]
fn tables_prove_claims(rt: HostRuntime) {
    let book = standard_book(rt.alloc()).expect(&rt, "the book");
    let empty = Table {
        rows: Vec::new(rt.alloc()),
    };
    let mut start = Table {
        rows: Vec::new(rt.alloc()),
    };
    let row = TableRow {
        set: PropSet::of_list(&[PropId::Vertices, PropId::Facets]),
        cost: Cost::none(),
    };
    start.rows.push(row).expect(&rt, "room for a row");
    assert!(rt;
        is_proved(&book, &[], &start, least(5)) && !is_proved(&book, &[], &start, least(6))
    );
    assert!(rt;
        is_proved(&book, &[], &empty, least(0)) && !is_proved(&book, &[], &empty, least(5))
    );
    assert!(rt; !is_proved(&book, &[], &start, Claim::NoChain));
    assert!(rt; is_proved(&book, &[RuleId(30)], &start, Claim::NoChain));
    assert!(rt; !is_proved(&book, &[RuleId(0)], &start, Claim::NoChain));
    assert!(rt; !is_proved(&book, &[RuleId(30)], &empty, Claim::NoChain));
}

// The table of a plan has six rows.
#[test]
fn a_table_proves_its_plan_in_any_order(rt: HostRuntime) {
    let book = standard_book(rt.alloc()).expect(&rt, "the book");
    let held = PropSet::of_list(&[PropId::Vertices, PropId::LinealitySpace]);
    let asked = PropSet::of(PropId::CombinatorialDim);
    let mut plan = plan(rt.alloc(), &book, names(), held, &[], asked).expect(&rt, "a plan");
    assert!(rt; plan.table.rows.len() == 6);
    assert!(rt; verify(&book, names(), held, &[], asked, &plan.table, least(6)));
    plan.table.rows.reverse();
    assert!(rt; verify(&book, names(), held, &[], asked, &plan.table, least(6)));
    plan.table.rows.pop();
    assert!(rt; !verify(&book, names(), held, &[], asked, &plan.table, least(6)));
}

// A book of one rule, of weight 40.
fn book_of_one_rule(rt: &impl Abort, alloc: Global) -> Book {
    let kinds = standard_kinds(alloc).expect(rt, "room for kinds");
    let text =
        "d : rule VERTICES, LINEALITY_SPACE : INEQUALITIES, EQUATIONS { dd_vertices } weight 40;";
    read_book(alloc, text, &kinds).expect(rt, "a book")
}

// Whether a table of the held names of a cone, or of no row, proves a claim of the chains to the vertices.
fn is_shown(rt: &impl Abort, alloc: Global, barred: &[RuleId], has_row: bool, c: Claim) -> bool {
    let book = book_of_one_rule(rt, alloc);
    let set = PropSet::of_list(&[
        PropId::ConeAmbientDim,
        PropId::Inequalities,
        PropId::Equations,
    ]);
    let mut rows = Vec::new(alloc);
    if has_row {
        let cost = Cost::none();
        rows.push(TableRow { set, cost })
            .expect(rt, "room for a row");
    }
    let (names, asked) = (names_of(ObjectType::Cone), PropSet::of(PropId::Vertices));
    verify(&book, names, set, barred, asked, &Table { rows }, c)
}

// The one chain has the weight 40; where its rule is barred there is none.
#[test]
fn tables_of_one_rule_prove_its_weight(rt: HostRuntime) {
    let alloc = rt.alloc();
    for (has_row, claim, wanted) in [
        (true, least(40), true),
        (true, least(41), false),
        (false, least(40), false),
        (false, least(0), true),
        (true, Claim::NoChain, false),
    ] {
        assert!(rt; is_shown(&rt, alloc, &[], has_row, claim) == wanted);
    }
    assert!(rt; is_shown(&rt, alloc, &[RuleId(0)], true, Claim::NoChain));
}
