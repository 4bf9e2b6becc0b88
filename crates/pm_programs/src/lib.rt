//! The mathematics of the simplex method: tableaux, dictionaries of fractions, pivots by the lexicographic rule, and
//! why they end. No code. It knows nothing of geometry, properties and objects.
#![tactic(auto)]

ghost use Rattle.pm_programs.specs.DictionaryLaws.{DictionaryIsUnique, PivotIsDictionary};
ghost use Rattle.pm_programs.specs.LexLaws.{LexIsFinite};
ghost use Rattle.pm_programs.specs.PivotLaws.{PivotBeginsFeasible, PivotKeepsFeasible, PivotRaises};
ghost use Rattle.pm_programs.specs.TableauLaws.{PivotIsTableau, TableauIsUnique};

/// A strict lexicographic rise of lists of bounded fractions ends.
pub fn law_lex_is_finite()
    ensures { LexIsFinite }
{}

/// A tableau is determined by its basis.
pub fn law_tableau_is_unique()
    ensures { TableauIsUnique }
{}

/// A pivot leads to a tableau of the same equations.
pub fn law_pivot_is_tableau()
    ensures { PivotIsTableau }
{}

/// The dictionary of a basis is unique.
pub fn law_dictionary_is_unique()
    ensures { DictionaryIsUnique }
{}

/// A pivot leads to the dictionary of the next basis.
pub fn law_pivot_is_dictionary()
    ensures { PivotIsDictionary }
{}

/// A pivot by the ratio test keeps lexicographic feasibility.
pub fn law_pivot_keeps_feasible()
    ensures { PivotKeepsFeasible }
{}

/// The pivot of the auxiliary variable makes it.
pub fn law_pivot_begins_feasible()
    ensures { PivotBeginsFeasible }
{}

/// A pivot at an improving variable raises the objective in lexicographic order.
pub fn law_pivot_raises()
    ensures { PivotRaises }
{}
