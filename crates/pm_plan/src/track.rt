// How the rows of a search were reached.

ghost use Rattle.std.specs.Prelude.{IfOk};
ghost use Rattle.pm_plan.specs.Tracks.{GoesBack, IsTrack};

use pm_rules::RuleId;
use std::alloc::{AllocError, Global};

/// The last rule of a chain, and the place among the rows where the chain was before it.
#[derive(Clone, Copy)]
pub struct Link {
    /// The place of the row before.
    pub from: usize,
    /// The rule that led on from there.
    pub id: RuleId,
}

/// The chain that ends with a link; no link ends the chain without rules.
pub fn chain_to(
    alloc: Global,
    links: &[Option<Link>],
    last: Option<Link>,
) -> Result<Vec<RuleId>, AllocError>
    requires { GoesBack links.now last }
    ensures { IfOk result (λ v. IsTrack links.now last v.items) }
{
    let mut chain = Vec::new(alloc);
    let mut next = last;
    'back: while let Some(link) = next {
        chain.push(link.id)?;
        next = links[link.from];
    }
    chain.reverse();
    Ok(chain)
}
