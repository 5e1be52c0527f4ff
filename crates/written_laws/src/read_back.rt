// The lines of an instance are read back as they are written.
ghost use Rattle.std.specs.Prelude.{◌≡◌, ◌≤◌, ℕ, length, All};
ghost use Rattle.crew_terms.specs.Instance.{Instance};
ghost use Rattle.crew_terms.specs.Rules.{IsInstance};
ghost use Rattle.crew_terms.specs.declared.Team.{Team};
ghost use Rattle.crew_terms.specs.declared.Task.{Task};
ghost use Rattle.crew_terms.specs.declared.TheConstants.{MOST_NODES};
ghost use Rattle.dossier_terms.specs.Dossier.{skills_of, mask_of};
ghost use Rattle.dossier_terms.specs.Lines.{size_of, size_line, place_line, travel_line, team_line, task_line};
ghost use Rattle.cert_format.specs.declared.kinds.Expect.TheVariants as expected;
ghost use Rattle.written_laws.specs.ReadBack.{IsReadAs, size_kind, place_kind, travel_kind, team_kind, task_kind};

use cert_format::line_has_one_answer;
use dossier_laws::set_is_spelled;
use text_laws::{instance_lines, words_of_line};

/// A law: `read_line` reads each line that `write_instance` writes as exactly what was written, where that kind of
/// line is due; of the line `size` this holds for a node budget of at most `MOST_NODES`, as a greater one is refused. And
/// the skills that it reads make the set of the team or the task.
pub fn instance_is_read_back()
    ensures size { (i : Instance) (budget : ℕ) → IsInstance i → budget ≤ MOST_NODES
        → IsReadAs expected.Size (size_line (size_of i budget)) (size_kind (size_of i budget)) }
    ensures places { (i : Instance) → IsInstance i
        → All (λ name. IsReadAs expected.Place (place_line name) (place_kind name)) i.places }
    ensures travel { (i : Instance) → IsInstance i
        → All (λ row. IsReadAs (expected.Travel (length i.places)) (travel_line row)
        (travel_kind row)) i.travel }
    ensures teams { (i : Instance) → IsInstance i
        → All (λ t. IsReadAs (expected.Team (length i.places)) (team_line t)
        (team_kind t)) i.teams }
    ensures tasks { (i : Instance) → IsInstance i
        → All (λ t. IsReadAs (expected.Task (length i.places)) (task_line t)
        (task_kind t)) i.tasks }
    ensures team_skills { (i : Instance) → IsInstance i
        → All (λ (t : Team). mask_of (skills_of t.skills) ≡ t.skills) i.teams }
    ensures task_skills { (i : Instance) → IsInstance i
        → All (λ (t : Task). mask_of (skills_of t.skills) ≡ t.skills) i.tasks }
{
    line_has_one_answer();
    set_is_spelled();
    words_of_line();
    instance_lines();
}
