// What a node may be split by, and how much it decides.
ghost use Rattle.std.specs.Prelude.{All, IfOk, IfSome};
ghost use Rattle.branch_choice.specs.Uses.{IsPermittedUse};
ghost use Rattle.crew_terms.specs.Limits.{Limits as NodeLimits};
ghost use Rattle.split_uses.specs.Permitted.{IsPermittedPick, IsPermittedScored};

use branch_choice::Use;
use std::alloc::{AllocError, Global};

/// What a node may be split by: a pair, or a window, which is cut between two minutes.
#[derive(Clone, Copy)]
pub(crate) enum Pick {
    Pair(Use),
    Window(Use, Use),
}

/// The same, and how much it decides.
#[derive(Clone, Copy)]
pub(crate) struct Scored {
    pub(crate) pick: Pick,
    pub(crate) gain: i128,
}

impl Pick {
    /// The uses that `choose` makes this choice of.
    pub(crate) fn uses(&self, alloc: Global) -> Result<Vec<Use>, AllocError>
        ensures { (n : NodeLimits) → IsPermittedPick n self.now
            → IfOk result (λ uses. All (IsPermittedUse n) uses.items) }
    {
        match self {
            Pick::Pair(one) => Vec::from_slice(alloc, &[*one]),
            Pick::Window(early, late) => Vec::from_slice(alloc, &[*early, *late]),
        }
    }
}

/// What is picked for this gain, if it gains anything.
pub(crate) fn gaining(pick: Pick, gain: i128) -> Option<Scored>
    ensures { (n : NodeLimits) → IsPermittedPick n pick → IfSome result (IsPermittedScored n) }
{
    if gain > 0 {
        Some(Scored { pick, gain })
    } else {
        None
    }
}

/// How much it decides; 0 where there is nothing.
pub(crate) fn gain_of(one: &Option<Scored>) -> i128 {
    match one {
        Some(scored) => scored.gain,
        None => 0,
    }
}

/// The one that decides more, the first where both decide as much.
pub(crate) fn better(first: Option<Scored>, second: Option<Scored>) -> Option<Scored>
    ensures { (n : NodeLimits) → IfSome first (IsPermittedScored n)
        → IfSome second (IsPermittedScored n) → IfSome result (IsPermittedScored n) }
{
    if gain_of(&second) > gain_of(&first) {
        second
    } else {
        first
    }
}
