// Why nothing is built of objects.

ghost use Rattle.pm_making.specs.Made.{of_built, of_refinement, of_sum};
ghost use Rattle.std.specs.Prelude.{◌≡◌};

use pm_build::SumFail;
use pm_files::FileObject;
use pm_object::{BuildFail, Condition};
use pm_refine::RefinementFail;
use pm_script::NotMadeWhy;

/// Why nothing is built.
#[derive(Drop)]
pub enum Unbuilt {
    /// This is the first condition that does not hold.
    NotFit(Condition),
    /// No condition fails, but a number leaves the range, or too many rows are needed.
    NotMade(NotMadeWhy),
    /// No memory was left.
    Memory,
}

/// What a builder answers that tests conditions alone.
pub fn of_built(built: Result<FileObject, BuildFail>) -> Result<FileObject, Unbuilt>
    ensures { result ≡ of_built built }
{
    match built {
        Ok(file) => Ok(file),
        Err(BuildFail::NotFit(condition)) => Err(Unbuilt::NotFit(condition)),
        Err(BuildFail::Memory) => Err(Unbuilt::Memory),
    }
}

/// What is answered of a Minkowski sum.
pub fn of_sum(built: Result<FileObject, SumFail>) -> Result<FileObject, Unbuilt>
    ensures { result ≡ of_sum built }
{
    match built {
        Ok(file) => Ok(file),
        Err(SumFail::NotFit(condition)) => Err(Unbuilt::NotFit(condition)),
        Err(
            SumFail::Wide {
                first,
                second,
                column,
            },
        ) => Err(Unbuilt::NotMade(NotMadeWhy::Combination {
            first,
            second,
            column,
        })),
        Err(SumFail::Memory) => Err(Unbuilt::Memory),
    }
}

/// What is answered of a common refinement.
pub fn of_refinement(built: Result<FileObject, RefinementFail>) -> Result<FileObject, Unbuilt>
    ensures { result ≡ of_refinement built }
{
    match built {
        Ok(file) => Ok(file),
        Err(RefinementFail::NotFit(condition)) => Err(Unbuilt::NotFit(condition)),
        Err(RefinementFail::NotMade { a, b, evidence }) => {
            Err(Unbuilt::NotMade(NotMadeWhy::Pair { a, b, evidence }))
        }
        Err(RefinementFail::Memory) => Err(Unbuilt::Memory),
    }
}
