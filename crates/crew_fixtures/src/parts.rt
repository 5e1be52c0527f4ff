// Names, teams, tasks and visits.
ghost use Rattle.std.specs.Prelude.{◌≡◌, IfOk};

use crate::faults::FixtureFault;
use crew_terms::{Name, Task, Team, Visit};

const ZERO: u8 = b'0';

/// The name with these bytes.
pub fn name(bytes: &[u8]) -> Result<Name, FixtureFault>
    ensures { IfOk result (λ name. name ≡ bytes.now) }
{
    Name::read(bytes).ok_or(FixtureFault::NoName)
}

/// The name that spells the last three digits of the number.
pub fn numbered(n: u32) -> Result<Name, FixtureFault> {
    let digits = [n / 100 % 10, n / 10 % 10, n % 10];
    name(&[
        ZERO + digits[0] as u8,
        ZERO + digits[1] as u8,
        ZERO + digits[2] as u8,
    ])
}

/// A team with this name and no skills, at home at place 0, from 06:00 to 14:00.
pub fn team(called: &[u8]) -> Result<Team, FixtureFault>
    ensures { IfOk result (λ team. team ≡
        record { name = called.now; home = 0; from = 360; until = 840; skills = 0 }) }
{
    Ok(Team {
        name: name(called)?,
        home: 0,
        from: 360,
        until: 840,
        skills: 0,
    })
}

/// A task with this name at place 1, which one team begins from 07:00 to 07:30 and does in half an hour. It needs no
/// skill.
pub fn task(called: &[u8]) -> Result<Task, FixtureFault>
    ensures { IfOk result (λ task. task ≡ record {
      name = called.now;
      place = 1;
      earliest = 420;
      latest = 450;
      minutes = 30;
      teams = 1;
      skills = 0;
    }) }
{
    Ok(Task {
        name: name(called)?,
        place: 1,
        earliest: 420,
        latest: 450,
        minutes: 30,
        teams: 1,
        skills: 0,
    })
}

/// A task as `task` gives it, for ten minutes at another place, which begins at this minute alone.
pub fn gate_task(called: &[u8], place: u32, at: u32) -> Result<Task, FixtureFault> {
    Ok(Task {
        place,
        earliest: at,
        latest: at,
        minutes: 10,
        ..task(called)?
    })
}

/// A visit of the task at the minute.
pub fn visit(task: u32, start: u32) -> Visit
    ensures { result ≡ record { task = task; start = start } }
{
    Visit { task, start }
}
