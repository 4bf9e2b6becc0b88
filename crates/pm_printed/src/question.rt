// What is asked of a printed text.

use pm_props::PropSet;
use pm_rules::RuleId;

/// What a printed table is to prove: the names in use, those held at the start and those asked, and the barred rules.
#[derive(Drop)]
pub struct Question {
    /// The names in use.
    pub names: PropSet,
    /// The names held at the start.
    pub held: PropSet,
    /// The asked names.
    pub asked: PropSet,
    /// The rules that no chain may have.
    pub barred: Vec<RuleId>,
}
