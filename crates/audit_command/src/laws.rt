// Laws of events: an input comes to one, and to that of dossiers that belong to its day exactly where they do.
ghost use Rattle.std.specs.Prelude.{◌≡◌, ◌≤◌, ℕ, List, length};
ghost use Rattle.crew_terms.specs.declared.TheConstants.{LONGEST_INPUT};
ghost use Rattle.dossier_commands.specs.Input.{text_of_lines};
ghost use Rattle.day_commands.specs.Dossiers.{AreDossiers};
ghost use Rattle.day_commands.specs.Rounds.{SaysRounds, change_stop};
ghost use Rattle.audit_command.specs.Days.{AreDayLines};
ghost use Rattle.audit_command.specs.Events.{IsEvent, IsFineAudit};
ghost use Rattle.audit_command.specs.Planned.{with_dossiers};
ghost use Rattle.audit_command.specs.Says.{SaysEvent};
ghost use Rattle.audit_command.specs.declared.ended.Ended.TheVariants.{Done};
ghost use Rattle.audit_command.specs.declared.event.Event.{Event};

use day_commands::laws::state_takes_entries;
use day_records::one_reading;
use day_terms::{plans_to_come_decide_nothing, rounds_are_of_plans, rounds_go_on, state_goes_on};
use dossier_commands::laws::{one_refusal, one_way_on, refused_is_not_accepted};
use text_laws::lines_in_text;

/// An input comes to one event.
pub fn one_event()
    ensures { (input : List ℕ) (event other : Event) → IsEvent input event → IsEvent input other
        → other ≡ event }
{
    lines_in_text();
    one_reading();
    state_takes_entries();
    plans_to_come_decide_nothing();
    rounds_are_of_plans();
    rounds_go_on();
    state_goes_on();
    one_refusal();
    refused_is_not_accepted();
    one_way_on();
}

/// An audit that is done took a day and dossiers that belong to it.
pub fn done_is_fine()
    ensures { (input written : List ℕ) → SaysEvent Done input written → IsFineAudit input }
{}

/// What `day` writes for a day without a refused record belongs to it, if no line of the day is the one behind it: put behind the
/// day and that line, it is an input that an audit takes to its end.
pub fn planned_days_belong()
    ensures { (lines : List (List ℕ)) (written : List ℕ) → AreDayLines lines
        → SaysRounds change_stop AreDossiers (text_of_lines lines) written
        → length (with_dossiers (text_of_lines lines) written) ≤ LONGEST_INPUT
        → IsFineAudit (with_dossiers (text_of_lines lines) written) }
{
    state_takes_entries();
}
