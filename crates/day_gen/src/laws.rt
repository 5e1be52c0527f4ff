// A law of generated days.
ghost use Rattle.std.specs.Prelude.{◌≡◌, ◌≤◌, ℕ, [], None, All};
ghost use Rattle.crew_terms.specs.declared.TheConstants.{MOST_NODES, MOST_TASKS, MOST_TEAMS};
ghost use Rattle.day_terms.specs.Ranges.{IsInRange};
ghost use Rattle.day_terms.specs.State.{start};
ghost use Rattle.day_terms.specs.Entries.{state_after};
ghost use Rattle.day_terms.specs.Refusal.{AreTaken};
ghost use Rattle.day_terms.specs.Rounds.{first_missing};
ghost use Rattle.day_gen.specs.Day.{generated_day};

use day_terms::free_days_forbid_nothing;

/// A law: within the limits of teams, tasks and nodes, the numbers of a generated day's entries are in their ranges, a
/// new desk takes each entry, and the state after them lacks no time, so that it has an instance.
pub fn generated_days_are_taken()
    ensures ranges { (number teams tasks nodes : ℕ) → nodes ≤ MOST_NODES
        → All IsInRange (generated_day number teams tasks nodes) }
    ensures taken { (number teams tasks nodes : ℕ) → teams ≤ MOST_TEAMS → tasks ≤ MOST_TASKS
        → AreTaken start (generated_day number teams tasks nodes) }
    ensures whole { (number teams tasks nodes : ℕ) → teams ≤ MOST_TEAMS → tasks ≤ MOST_TASKS →
        first_missing (state_after [] (generated_day number teams tasks nodes)) ≡ None }
{
    free_days_forbid_nothing();
}
