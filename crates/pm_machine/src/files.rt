// Why files are refused.

ghost use Rattle.pm_filing.specs.ReadingViews.{fault_of};
ghost use Rattle.pm_machine.specs.Steps.{IsFault, fault_of_why};
ghost use Rattle.std.specs.Prelude.{IfSome, Some, ◌≡◌};

use pm_filing::FileFail;
use pm_json::ValueFail;
use pm_script::{FileWhy, ValueWhy};

// The reason of a fault of a value; want of memory is none.
fn why_of_value(fail: ValueFail) -> Option<ValueWhy>
    ensures { IfSome result (λ why. fault_of_why why ≡ Some fail) }
{
    match fail {
        ValueFail::Shape => Some(ValueWhy::Shape),
        ValueFail::Number => Some(ValueWhy::Number),
        ValueFail::Index => Some(ValueWhy::Index),
        ValueFail::Limit => Some(ValueWhy::Limit),
        ValueFail::Memory => None,
    }
}

/// The reason of a fault of a file; want of memory is none.
pub fn why_of_file(fail: FileFail) -> Option<FileWhy>
    ensures { IfSome result (λ why. IsFault why (fault_of fail)) }
{
    match fail {
        FileFail::Limit => Some(FileWhy::Limit),
        FileFail::NotJson => Some(FileWhy::NotJson),
        FileFail::NoType => Some(FileWhy::NoType),
        FileFail::UnknownType => Some(FileWhy::UnknownType),
        FileFail::BadProperty { name, why } => {
            let why = why_of_value(why)?;
            Some(FileWhy::BadProperty { name, why })
        }
        FileFail::BadRow { name } => Some(FileWhy::BadRow { name }),
        FileFail::BadProfile { key } => Some(FileWhy::BadProfile { key }),
        FileFail::Memory => None,
    }
}
