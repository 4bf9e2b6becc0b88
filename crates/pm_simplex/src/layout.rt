// How the variables of a linear program are laid out.

ghost use Rattle.std.specs.Prelude.{◌+◌, ◌*◌, ◌<◌, ◌^◌, ◌≤◌};

/// How many columns the rows have, and how many inequalities and equations there are. The columns of the variables are
/// 0 for the constant, then the free coordinates, the slacks, the residuals, the auxiliary variable and the objective.
#[derive(Clone, Copy)]
pub(crate) struct Layout {
    pub cols: usize,
    pub slacks: usize,
    pub residuals: usize,
    ghost small: { cols + slacks + residuals ≤ 3 * 2 ^ 30 },
    ghost some: { 0 < cols },
}
