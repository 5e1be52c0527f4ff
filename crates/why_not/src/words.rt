// The words of lines that are too long to be held.
ghost use Rattle.std.specs.Prelude.{◌≡◌, ◌≤◌, ◌<◌, ◌++◌, ℕ, length, map};
ghost use Rattle.std.specs.List.{flat_map, range_with_len};
ghost use Rattle.crew_terms.specs.Instance.{task_of};
ghost use Rattle.crew_terms.specs.declared.TheConstants.{LAST_MINUTE};
ghost use Rattle.crew_io.specs.Puts.{Puts};
ghost use Rattle.field_table.specs.Clocks.{clock_text};
ghost use Rattle.line_out.specs.Parts.{next_word, part_word};
ghost use Rattle.team_days.specs.declared.obstacles.Obstacle.TheVariants.{Busy};
ghost use Rattle.why_not.specs.Why.{obstacle_text, team_word};

use crate::days::Days;
use crew_instance::Instance;
use crew_io::put::put_all;
use crew_io::sink::{Sink, WriteFault};
use crew_terms::LAST_MINUTE;
use field_table::write_clock;
use line_out::{Part, put_next};
use team_days::{Obstacle, obstacles_are_told};

/// A minute as a clock shows it.
pub(crate) fn clock(minute: u32) -> [u8; 5]
    requires { minute ≤ LAST_MINUTE }
    ensures { result ≡ clock_text minute }
{
    let mut text = [0u8; 5];
    write_clock(minute, &mut text);
    text
}

/// Writes more words of a line.
pub(crate) fn put_words<K: Sink>(out: &mut K, parts: &[Part<'_>]) -> Result<(), WriteFault>
    ensures { Puts K.Sink (flat_map next_word (map part_word parts.now)) out.old out.new result }
{
    for part in parts {
        put_next(out, part)?;
    }
    Ok(())
}

/// Writes what is told of a team, behind its name.
fn put_obstacle<K: Sink>(out: &mut K, instance: &Instance, told: Obstacle) -> Result<(), WriteFault>
    requires { (h : ℕ) → told ≡ Busy h → h < length instance.now.tasks }
    ensures { Puts K.Sink (obstacle_text instance.now told) out.old out.new result }
{
    match told {
        Obstacle::Free => put_all(out, b"=free"),
        Obstacle::Skill => put_all(out, b"=skill"),
        Obstacle::Shift => put_all(out, b"=shift"),
        Obstacle::Busy(h) => {
            put_all(out, b"=busy:")?;
            put_all(out, instance.task(h).name.bytes())
        }
    }
}

/// Writes one more word of a line: team `k`, and what keeps it from task `j` at minute `t`.
fn put_team<K: Sink>(out: &mut K, days: &Days<'_>, k: u32, j: u32, t: u32) -> Result<(), WriteFault>
    requires team { k < length days.now.instance.teams }
    requires task { j < length days.now.instance.tasks }
    requires window { t ≤ (task_of days.now.instance j).latest }
    ensures { Puts K.Sink (next_word (team_word days.now.instance days.now.plan j t k))
        out.old out.new result }
{
    obstacles_are_told();
    let instance = days.instance();
    put_next(out, &Part::Word(instance.team(k).name.bytes()))?;
    put_obstacle(out, instance, days.obstacle(k, j, t))
}

/// Writes a word of a line for each team.
pub(crate) fn put_teams<K: Sink>(
    out: &mut K,
    days: &Days<'_>,
    j: u32,
    t: u32,
) -> Result<(), WriteFault>
    requires task { j < length days.now.instance.tasks }
    requires window { t ≤ (task_of days.now.instance j).latest }
    ensures { Puts K.Sink (flat_map next_word
        (map (team_word days.now.instance days.now.plan j t)
        (range_with_len 0 (length days.now.instance.teams))))
        out.old out.new result }
{
    for k in 0..days.instance().teams() as u32 {
        put_team(out, days, k, j, t)?;
    }
    Ok(())
}
