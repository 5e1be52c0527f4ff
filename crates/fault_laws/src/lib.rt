// Laws of what is told of a day: the record of which a fault is told first is the first one that the commands over the day refuse.
// Each law is the contract of a function with nothing to do.
#![tactic(auto)]

ghost use Rattle.std.specs.Prelude.{◌≡◌, ◌⊎◌, ℕ, List, [], Option, None, option_map};
ghost use Rattle.crew_terms.specs.Plan.{Plan};
ghost use Rattle.day_terms.specs.Rounds.{Round};
ghost use Rattle.day_commands.specs.Refused.{refused_line};
ghost use Rattle.day_commands.specs.Outputs.{ProvedOf, TextsOf};
ghost use Rattle.day_commands.specs.Rounds.{ComesTo, DayStop, IsRefusedOutput, SaysRounds, change_stop};
ghost use Rattle.day_commands.specs.declared.ended.DayOutput.TheVariants.{Instances};
ghost use Rattle.day_explain.specs.Says.{SaysFine, SaysWrong};
ghost use Rattle.day_explain.specs.Text.{refused_text};
ghost use Rattle.day_faults.specs.Days.{StopsFirst};
ghost use Rattle.day_faults.specs.declared.stops.Stop.{Stop};
ghost use Rattle.fault_laws.specs.Told.{EndAlike, StopsForWork, day_stop};

use day_commands::laws::{one_coming, state_takes_entries};
use day_records::one_reading;
use day_terms::{entries_are_said_by_place, free_days_forbid_nothing};

/// The command `apply`, which makes no plan, refuses the record of which a fault is told first, for the cause that is told; and none
/// where none is told.
pub fn apply_stops_at_what_is_told()
    ensures { (text : List ℕ) (told : Option Stop) (rounds : List Round) (stop : Option DayStop)
        → StopsFirst text told → ComesTo change_stop [] text rounds stop
        → stop ≡ option_map day_stop told }
{
    one_coming();
    state_takes_entries();
}

/// The command `day` does so too, whatever its plans are, unless it stops before that record for the sake of frozen work. So nothing is
/// told of a day that it takes to its end.
pub fn day_stops_at_what_is_told()
    ensures first { (text : List ℕ) (told : Option Stop) (plans : List Plan) (rounds : List Round)
        (stop : Option DayStop)
        → StopsFirst text told → ComesTo change_stop plans text rounds stop
        → (stop ≡ option_map day_stop told) ⊎ StopsForWork told stop }
    ensures none { (text : List ℕ) (told : Option Stop) (plans : List Plan) (rounds : List Round)
        → StopsFirst text told → ComesTo change_stop plans text rounds None → told ≡ None }
{
    apply_stops_at_what_is_told();
    one_reading();
    state_takes_entries();
    entries_are_said_by_place();
    free_days_forbid_nothing();
}

/// The line that `apply` is said to write of a record is the one that it writes.
pub fn one_line_is_told()
    ensures { (stop : Stop) → refused_text stop.number stop.cause
        ≡ refused_line (day_stop stop).number (day_stop stop).cause }
{}

/// What `explain` tells of a day with faults ends with the line that `apply` writes of it. `apply` refuses no day that has none, and
/// takes none to its end that has some.
pub fn explain_tells_what_apply_writes()
    ensures wrong { (input explained applied : List ℕ) → SaysWrong input explained
        → IsRefusedOutput change_stop (TextsOf Instances) input applied
        → EndAlike explained applied }
    ensures fine { (input explained applied : List ℕ) → SaysFine input explained
        → IsRefusedOutput change_stop (TextsOf Instances) input applied → ⊥ }
    ensures taken { (input explained applied : List ℕ) → SaysWrong input explained
        → SaysRounds change_stop (ProvedOf Instances) input applied → ⊥ }
{
    apply_stops_at_what_is_told();
    one_line_is_told();
}
