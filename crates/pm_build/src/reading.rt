// Tests of rows.

ghost use Rattle.pm_object_type.specs.declared.object_type.ObjectType.TheVariants.{Polytope};
ghost use Rattle.pm_props.specs.declared.property.PropId.TheVariants.{Points};
ghost use Rattle.pm_types.specs.Forms.{is_row};
ghost use Rattle.std.specs.List.{list_all};
ghost use Rattle.std.specs.Prelude.{◌≡◌};

use pm_fraction::Matrix;
use pm_types::first_is_below;

/// Whether each row can be a point of a polytope: none has a negative first entry.
pub(crate) fn are_points(matrix: &Matrix) -> bool
    ensures { result ≡ list_all (is_row Polytope Points) matrix.now.rows }
{
    for i in 0..matrix.rows() {
        if first_is_below(matrix.row(i)) {
            return false;
        }
    }
    true
}
