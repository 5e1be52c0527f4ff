// The rules by which a node is split, in their order.
ghost use Rattle.std.specs.Prelude.{◌↔◌, All, IfSome, IsNone, MatchOption};
ghost use Rattle.crew_terms.specs.Decided.{IsDecided};
ghost use Rattle.search_terms.specs.Choice.{IsValidChoice};
ghost use Rattle.branch_choice.specs.Rules.{IsFirstChoice};
ghost use Rattle.branch_choice.specs.Uses.{IsPermittedUse};

use crate::ends::uses_cut;
use crate::pairs::{open_pair, used_pair};
use crate::uses::Use;
use crate::windows::window_cut;
use crew_terms::Choice;
use node_limits::Limits;

/// Where a node is split, by the first of four rules that fits. The lowest task with uses at two minutes has its window
/// cut halfway between the least and the greatest of them. Else the lowest free pair with a use is taken, by task and
/// then by team. Else the lowest task with a window of more than one minute has it cut in the middle. Else the lowest
/// free pair is taken whose team may begin the task. None exactly where the node is decided. It takes no memory.
pub fn choose(limits: &Limits<'_>, uses: &[Use]) -> Option<Choice>
    requires { All (IsPermittedUse limits.now.limits) uses.now }
    ensures first { IfSome result (IsFirstChoice limits.now.limits uses.now) }
    ensures valid { IfSome result (IsValidChoice limits.now.limits) }
    ensures none { IsNone result ↔ IsDecided limits.now.limits }
{
    if let Some((task, cut)) = uses_cut(limits, uses) {
        return Some(Choice::Window { task, cut });
    }
    if let Some((team, task)) = used_pair(limits, uses) {
        return Some(Choice::Pair { team, task });
    }
    if let Some((task, cut)) = window_cut(limits) {
        return Some(Choice::Window { task, cut });
    }
    let (team, task) = open_pair(limits)?;
    Some(Choice::Pair { team, task })
}
