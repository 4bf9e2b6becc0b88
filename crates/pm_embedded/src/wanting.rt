// A client that never has memory, to end a run for want of it.

use pm_client::{Client, ClientFail};
use pm_object::{Draft, View};
use pm_types::{Kind, PropId};
use std::alloc::Global;

/// A client that finds CONE_DIM from VERTICES, if it ever had memory.
#[derive(Drop)]
pub(crate) struct Wanting {
    pub(crate) starts: u64,
}

impl Client for Wanting {
    ghost use Rattle.pm_client.specs.declared.ClientFail.TheVariants.{Memory};
    ghost use Rattle.pm_props.specs.Kinds.{finding};
    ghost use Rattle.pm_props.specs.declared.property.PropId.TheVariants.{ConeDim, Vertices};
    ghost use Rattle.std.specs.Prelude.{[], codes, ◌∷◌, ◌≡◌};

    ghost tally = { λ c. (finding (codes "wanting") (ConeDim ∷ []) (Vertices ∷ []), c.starts) };

    ghost MayFail = { λ c v f. f ≡ Memory };

    fn kind(&self) -> Kind {
        Kind::finding("wanting", &[PropId::ConeDim], &[PropId::Vertices])
    }

    fn starts(&self) -> u64 {
        self.starts
    }

    fn run(&mut self, _alloc: Global, _view: &View, _draft: &mut Draft) -> Result<(), ClientFail> {
        self.starts = self.starts.saturating_add(1);
        Err(ClientFail::Memory)
    }
}
