// What data files hold.

use pm_fraction::Matrix;
use pm_props::{ObjectType, PropId, PropSet};
use pm_types::Value;

/// What a data file holds of an object.
#[derive(Debug, Drop)]
pub struct FileObject {
    /// The type.
    pub of: ObjectType,
    /// The values.
    pub values: Vec<(PropId, Value)>,
    /// Which of the values were computed.
    pub stored: PropSet,
    /// The labels of rules that failed, each with the number of its evidence, from 1 to 5.
    pub failed: Vec<(String, u8)>,
    /// The linear programs.
    pub programs: Vec<FileProgram>,
    /// The keys that were read over.
    pub ignored: Vec<String>,
}

/// What a data file holds of a linear program.
#[derive(Debug, Drop)]
pub struct FileProgram {
    /// Its name.
    pub name: Option<String>,
    /// Its objective, one row.
    pub objective: Option<Matrix>,
    /// The labels of rules that failed for it, each with the number of its evidence.
    pub failed: Vec<(String, u8)>,
}
