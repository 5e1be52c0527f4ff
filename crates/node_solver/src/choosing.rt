// By which choice a step splits its node.
ghost use Rattle.std.specs.Prelude.{All, IfOk, IfSome};
ghost use Rattle.crew_terms.specs.Decided.{IsDecided};
ghost use Rattle.potentials.specs.Prices.{ArePricesOf};
ghost use Rattle.search_terms.specs.Choice.{IsValidChoice};
ghost use Rattle.split_uses.specs.Permitted.{IsPermittedSpan};

use branch_choice::choose;
use crew_terms::Choice;
use node_limits::Limits;
use potentials::Prices;
use split_uses::{Span, split_uses};
use std::alloc::{AllocError, Global};

/// The choice by which the node is split: that which is wanted, if there is one, or else that of the visits of which so many
/// parts make a whole. AllocError where there is no memory.
pub(crate) fn choice_of(
    alloc: Global,
    limits: &Limits<'_>,
    prices: &Prices,
    spans: &[Span],
    whole: i128,
    wanted: Option<Choice>,
) -> Result<Choice, AllocError>
    requires open { IsDecided limits.now.limits → ⊥ }
    requires prices { ArePricesOf limits.now.limits prices.now }
    requires spans { All (IsPermittedSpan limits.now.limits) spans.now }
    requires wanted { IfSome wanted (IsValidChoice limits.now.limits) }
    ensures { IfOk result (IsValidChoice limits.now.limits) }
{
    if let Some(choice) = wanted {
        return Ok(choice);
    }
    let picked = split_uses(alloc, limits, prices, spans, whole)?;
    Ok(choose(limits, &picked).unwrap())
}
