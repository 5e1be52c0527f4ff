// Laws of days: by which state each entry is taken, and that a day comes to one thing.
ghost use Rattle.std.specs.Prelude.{◌≡◌, ◌↔◌, ℕ, List, Option, None, Some, slice_get, take};
ghost use Rattle.crew_terms.specs.Plan.{Plan};
ghost use Rattle.day_terms.specs.declared.Entry.{Entry};
ghost use Rattle.day_terms.specs.State.{start_with};
ghost use Rattle.day_terms.specs.Entries.{state_after};
ghost use Rattle.day_terms.specs.Refusal.{AreTaken};
ghost use Rattle.day_terms.specs.Rounds.{Round};
ghost use Rattle.day_commands.specs.Rounds.{AreTakenBy, ComesTo, DayStop, Stops, change_stop};
ghost use Rattle.day_commands.specs.ToCome.{PlansToCome};

use day_records::one_reading;
use day_terms::{plans_to_come_decide_nothing, rounds_are_of_plans, state_goes_on};

/// Entries of a day are taken exactly where none is stopped in the state that those before it come to.
pub fn entries_are_taken_in_turn()
    ensures { (stops : Stops) (plans : List Plan) (entries : List Entry)
        → AreTakenBy stops (start_with plans) entries
        ↔ ((n : ℕ) (entry : Entry) → slice_get entries n ≡ Some entry
        → stops (state_after plans (take n entries)) entry ≡ None) }
{}

/// Where only the day's state stops an entry, they are taken exactly where it takes them.
pub fn state_takes_entries()
    ensures { (plans : List Plan) (entries : List Entry)
        → AreTakenBy change_stop (start_with plans) entries
        ↔ AreTaken (start_with plans) entries }
{}

/// Where its rounds have these plans, a day's text comes to one list of rounds, and to one refusal or none.
pub fn one_coming()
    ensures { (stops : Stops) (plans : List Plan) (text : List ℕ) (rounds others : List Round)
        (stop other : Option DayStop)
        → ComesTo stops plans text rounds stop → ComesTo stops plans text others other
        → (rounds ≡ others) × (stop ≡ other) }
{
    one_reading();
}

/// What the laws of days say of the plans of rounds to come.
pub(crate) fn plans_to_come()
    ensures { PlansToCome }
{
    plans_to_come_decide_nothing();
    rounds_are_of_plans();
    state_goes_on();
    one_reading();
}
