// Worked examples of what is right for linear programs: which values, faces and dual rows are, and which are not. It
// has no code. It knows nothing of objects, rules and clients.

ghost use Rattle.pm_examples_objects.specs.JsonExamples.{MatricesAreRead, NumbersAreRead};
ghost use Rattle.pm_examples_objects.specs.EndlessExamples.{EndlessProgramsAreRead, LineProgramsAreRead, ScaledDualsAreRead};
ghost use Rattle.pm_examples_objects.specs.FormExamples.{FaultsAreRead, RowTestsAreRead, ValueFormsAreRead};
ghost use Rattle.pm_examples_objects.specs.ProgramExamples.{ConstantProgramsAreRead, EmptyProgramsAreRead, FormsAreRead, FractionalProgramsAreRead, HalfLineProgramsAreRead, SquareDualsAreRead, SquareProgramsAreRead};

/// What is right for a program on the empty polytope, and what is not.
pub fn example_empty_programs()
    ensures { EmptyProgramsAreRead }
{}

/// What is right for a program on the half line, which improves without end, and what is not.
pub fn example_half_line_programs()
    ensures { HalfLineProgramsAreRead }
{}

/// What is right for the values and faces of a program on the unit square, and what is not.
pub fn example_square_programs()
    ensures { SquareProgramsAreRead }
{}

/// Which dual rows are right for a program on the unit square, and which are not.
pub fn example_square_duals()
    ensures { SquareDualsAreRead }
{}

/// What is right for an objective that is 0.
pub fn example_constant_programs()
    ensures { ConstantProgramsAreRead }
{}

/// What is right for an objective with a denominator.
pub fn example_fractional_programs()
    ensures { FractionalProgramsAreRead }
{}

/// Which values have the forms of objectives, tables and numbers, and which have not.
pub fn example_forms()
    ensures { FormsAreRead }
{}

/// Which JSON values are matrices with a column count and tables, and which are not.
pub fn example_matrices()
    ensures { MatricesAreRead }
{}

/// Which JSON values are objectives and numbers, and which are not.
pub fn example_numbers()
    ensures { NumbersAreRead }
{}

/// What is right for programs that fall without end, and for one that no direction improves, and what is not.
pub fn example_endless_programs()
    ensures { EndlessProgramsAreRead }
{}

/// What is right for a program on a line, modulo the rows that vanish there, and what is not.
pub fn example_line_programs()
    ensures { LineProgramsAreRead }
{}

/// Dual rows stand with their multipliers, and need not be primitive.
pub fn example_scaled_duals()
    ensures { ScaledDualsAreRead }
{}

/// Which sets, lattices, lists of numbers, whole numbers and truth values have the forms of their properties, and
/// which have not.
pub fn example_value_forms()
    ensures { ValueFormsAreRead }
{}

/// Which rows pass the tests of rows, of polytopes, cones and fans, and which do not.
pub fn example_row_tests()
    ensures { RowTestsAreRead }
{}

/// Which fault a JSON value has, where an index is none, and where there are two faults.
pub fn example_faults()
    ensures { FaultsAreRead }
{}
