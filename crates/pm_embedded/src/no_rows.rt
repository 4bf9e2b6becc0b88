// A client that the program does not have: INEQUALITIES without rows, from FACETS.

ghost use Rattle.pm_embedded.specs.NoRows.{no_rows};
ghost use Rattle.std.specs.Prelude.{◌≡◌};

use pm_client::{Client, ClientFail, put_value};
use pm_fraction::Matrix;
use pm_object::{Draft, View};
use pm_types::{Kind, PropId, Value};
use std::alloc::Global;

/// A client that answers INEQUALITIES from FACETS by a matrix without rows. It reads no row of FACETS.
///
/// The answer is right: each row of INEQUALITIES is to be valid, and there is none. It says less than FACETS do, since
/// inequalities cut a polytope out only together with EQUATIONS, and a rule with this client runs where these are not
/// held.
#[derive(Drop)]
pub struct NoRows {
    starts: u64,
}

impl NoRows {
    /// The client, which was never started.
    pub fn new() -> NoRows
        ensures { ⟦<NoRows as Client>⟧.tally result ≡ (no_rows, 0) }
    {
        NoRows { starts: 0 }
    }
}

/// Its name, what it finds, and from what.
fn no_rows_kind() -> Kind
    ensures { result ≡ no_rows }
{
    Kind::finding("no_rows", &[PropId::Inequalities], &[PropId::Facets])
}

impl Client for NoRows {
    ghost use Rattle.pm_client.specs.declared.ClientFail.TheVariants.{Memory};
    ghost use Rattle.pm_embedded.specs.NoRows.{HasNoRows, no_rows};
    ghost use Rattle.std.specs.Prelude.{◌≡◌};

    ghost tally = { λ c. (no_rows, c.starts) };

    ghost MayPut = { λ c v d. HasNoRows d };

    ghost MayFail = { λ c v f. f ≡ Memory };

    fn kind(&self) -> Kind {
        no_rows_kind()
    }

    fn starts(&self) -> u64 {
        self.starts
    }

    fn run(&mut self, alloc: Global, view: &View, draft: &mut Draft) -> Result<(), ClientFail> {
        self.starts = self.starts.saturating_add(1);
        // What it reads is a view.
        let _cols = view.cols();
        let rows = Matrix::new(alloc, 0);
        put_value(draft, PropId::Inequalities, Value::Mat(rows))?;
        Ok(())
    }
}
