// New objects, of the values that are built.

ghost use Rattle.pm_command.specs.Commands.{seen_shape};
ghost use Rattle.pm_files.specs.Views.{file_of};
ghost use Rattle.pm_making.specs.Rows.{Makes, Unfit, Unmade, object_of, row_of, shape_condition, shape_file};
ghost use Rattle.pm_filing.specs.Views.{value_seen};
ghost use Rattle.pm_making.specs.Made.{AreFitting, IsFitting, IsRead, IsUnbuilt, IsUnfit, given_values};
ghost use Rattle.pm_object.specs.State.{IsRefused};
ghost use Rattle.std.specs.Prelude.{IfErr, IfOk, None, OnOk, [], map, ◌∷◌, ◌≡◌};

use crate::unbuilt::{Unbuilt, of_built, of_refinement, of_sum};
use pm_build::{cross, cube, cyclic, minkowski, polar, product, pyramid, simplex};
use pm_command::{Binary, Builder, Shape, Unary};
use pm_fan::{face_fan, normal_fan};
use pm_files::FileObject;
use pm_object::{BuildFail, Object};
use pm_object_type::ObjectType;
use pm_refine::refine;
use pm_types::{PropId, Value};
use std::alloc::{AllocError, Global};

/// A command that builds an object of others: the type of these, and the properties that are ensured of each, in
/// their order.
#[derive(Clone, Copy)]
pub struct Row {
    pub of: ObjectType,
    pub reads: &'static [PropId],
}

/// The row of a command.
pub fn row_of(what: Builder) -> Row
    ensures of { result.of ≡ (row_of what).of }
    ensures reads { result.reads.now ≡ (row_of what).reads }
{
    match what {
        Builder::One(Unary::Polar) => Row {
            of: ObjectType::Polytope,
            reads: &[
                PropId::Bounded,
                PropId::FullDim,
                PropId::Centered,
                PropId::Facets,
            ],
        },
        Builder::One(Unary::Pyramid) => Row {
            of: ObjectType::Polytope,
            reads: &[PropId::Vertices, PropId::LinealitySpace],
        },
        Builder::One(Unary::NormalFan) => Row {
            of: ObjectType::Polytope,
            reads: &[
                PropId::Bounded,
                PropId::Feasible,
                PropId::AffineHull,
                PropId::VerticesInFacets,
                PropId::Facets,
                PropId::Vertices,
            ],
        },
        Builder::One(Unary::FaceFan) => Row {
            of: ObjectType::Polytope,
            reads: &[
                PropId::Bounded,
                PropId::Centered,
                PropId::VerticesInFacets,
                PropId::Vertices,
            ],
        },
        Builder::Two(Binary::Product) => Row {
            of: ObjectType::Polytope,
            reads: &[PropId::Facets, PropId::AffineHull],
        },
        Builder::Two(Binary::Minkowski) => Row {
            of: ObjectType::Polytope,
            reads: &[PropId::Feasible, PropId::Vertices, PropId::LinealitySpace],
        },
        Builder::Two(Binary::Refine) => Row {
            of: ObjectType::Fan,
            reads: &[
                PropId::Vertices,
                PropId::LinealitySpace,
                PropId::MaximalCones,
            ],
        },
    }
}

/// The values of what is built of one object that holds what is read. `NotFit` names the first condition that fails.
pub fn build_one(alloc: Global, what: Unary, object: &Object) -> Result<FileObject, BuildFail>
    requires { IsRead (row_of (Builder.One what)).reads object.now.state }
    ensures made { IfOk result (λ f. Makes (Builder.One what) (object.now.state ∷ [])
        (file_of f)) }
    ensures fitting { IfOk result (λ f. IsFitting (file_of f)) }
    ensures unfit { IfErr result (IsUnfit (Unfit (Builder.One what) (object.now.state ∷ []))) }
{
    // Its values have their forms.
    let _of = object.of();
    match what {
        Unary::Polar => polar(alloc, object),
        Unary::Pyramid => pyramid(alloc, object),
        Unary::NormalFan => normal_fan(alloc, object),
        Unary::FaceFan => face_fan(alloc, object),
    }
}

/// The values of what is built of two objects that hold what is read. `NotFit` names the first condition that fails,
/// `NotMade` why nothing is made where none does.
pub fn build_two(alloc: Global, what: Binary, a: &Object, b: &Object) -> Result<FileObject, Unbuilt>
    requires first { IsRead (row_of (Builder.Two what)).reads a.now.state }
    requires second { IsRead (row_of (Builder.Two what)).reads b.now.state }
    ensures made { IfOk result (λ f. Makes (Builder.Two what)
        (a.now.state ∷ b.now.state ∷ []) (file_of f)) }
    ensures fitting { IfOk result (λ f. IsFitting (file_of f)) }
    ensures unbuilt { IfErr result (IsUnbuilt
        (Unfit (Builder.Two what) (a.now.state ∷ b.now.state ∷ []))
        (Unmade (Builder.Two what) (a.now.state ∷ b.now.state ∷ []))) }
{
    // Their values have their forms.
    let _first = a.of();
    let _second = b.of();
    match what {
        Binary::Product => of_built(product(alloc, a, b)),
        Binary::Minkowski => of_sum(minkowski(alloc, a, b)),
        Binary::Refine => of_refinement(refine(alloc, a, b)),
    }
}

/// The values of a standard polytope. `NotFit` where its numbers are too large, or too small.
pub fn build_shape(alloc: Global, shape: Shape) -> Result<FileObject, BuildFail>
    ensures built { IfOk result (λ f. file_of f ≡ shape_file (seen_shape shape)) }
    ensures fits { OnOk result (shape_condition (seen_shape shape) ≡ None) }
    ensures fitting { IfOk result (λ f. IsFitting (file_of f)) }
    ensures refused { IfErr result (IsRefused (shape_condition (seen_shape shape))) }
{
    match shape {
        Shape::Cube(d) => cube(alloc, d),
        Shape::Simplex(d) => simplex(alloc, d),
        Shape::Cross(d) => cross(alloc, d),
        Shape::Cyclic(d, n) => cyclic(alloc, d, n),
    }
}

// Adds given values of different properties of the table, which have their forms for one column count, to an object
// that holds nothing.
fn add_all(object: &mut Object, values: Vec<(PropId, Value)>) -> Result<(), AllocError>
    requires empty { object.old.state.held ≡ [] }
    requires fitting { AreFitting object.old.state.of (map value_seen values.items) }
    ensures ok { OnOk result (object.new.state
        ≡ record object.old.state { held = given_values (map value_seen values.items) }) }
{
    for (p, v) in values {
        object.add_given(p, v)?;
    }
    Ok(())
}

/// The object of these values alone, all of them given.
pub fn object_of(alloc: Global, file: FileObject) -> Result<Object, AllocError>
    requires { IsFitting (file_of file) }
    ensures { IfOk result (λ o. o.state ≡ object_of (file_of file)) }
{
    let mut object = Object::new(alloc, file.of);
    match add_all(&mut object, file.values) {
        Ok(()) => Ok(object),
        Err(e) => {
            drop(object);
            Err(e)
        }
    }
}
