// Windows that are wider than one minute.
ghost use Rattle.std.specs.Prelude.{MatchOption};
ghost use Rattle.branch_choice.specs.Rules.{AreOneMinute, IsWindowCut};

use node_limits::Limits;

/// The lowest task with a window wider than one minute, and the cut in its middle.
pub(crate) fn window_cut(limits: &Limits<'_>) -> Option<(u32, u32)>
    ensures { MatchOption result (AreOneMinute limits.now.limits)
        (λ found. IsWindowCut limits.now.limits found.0 found.1) }
{
    for j in 0..limits.instance().tasks() as u32 {
        let (from, until) = limits.window(j);
        if from < until {
            return Some((j, from.midpoint(until)));
        }
    }
    None
}
