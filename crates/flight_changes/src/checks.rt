// Which entries are refused.
ghost use Rattle.std.specs.Prelude.{◌≡◌, ◌≤◌, ℕ};
ghost use Rattle.crew_terms.specs.declared.TheConstants.{LAST_MINUTE};
ghost use Rattle.day_terms.specs.Ranges.{IsInRange};
ghost use Rattle.day_terms.specs.Refusal.{is_bad_count, is_bad_shift, is_bad_window};
ghost use Rattle.day_terms.specs.State.{has_place, has_task, has_team};
ghost use Rattle.flight_changes.specs.Faults.{answer_by_lists};

use crate::faults::ChangeFault;
use crate::lists::Lists;
use crew_instance::{is_shift, is_span, is_team_count};
use crew_terms::{MOST_PLACES, MOST_TASKS, MOST_TEAMS, Name};
use day_terms::Entry;

/// Whether the shift does not end after it begins.
fn is_bad_shift(from: u32, until: u32) -> bool
    requires { until ≤ LAST_MINUTE }
    ensures { result ≡ is_bad_shift from until }
{
    !is_shift(from, until)
}

/// Whether the window ends before it begins, or is too wide.
fn is_bad_window(earliest: u32, latest: u32) -> bool
    requires { latest ≤ LAST_MINUTE }
    ensures { result ≡ is_bad_window earliest latest }
{
    !is_span(earliest, latest)
}

/// Whether no task may need so many teams.
fn is_bad_count(teams: u32) -> bool
    ensures { result ≡ is_bad_count teams }
{
    !is_team_count(teams)
}

impl Lists {
    /// Refuses an entry where a condition of its kind holds, by the first that does.
    pub(crate) fn check(&self, entry: &Entry) -> Result<(), ChangeFault>
        requires { IsInRange entry.now }
        ensures { result ≡ answer_by_lists self.now entry.now }
    {
        match *entry {
            Entry::Place { name } => self.check_place(&name),
            Entry::Travel { from, to, .. } => self.check_way(&from, &to),
            Entry::RouteTime { from, to, .. } => self.check_way(&from, &to),
            Entry::DefaultTravel { .. } => Ok(()),
            Entry::Team {
                name,
                home,
                from,
                until,
                ..
            } => self.check_team(&name, &home, from, until),
            Entry::Task {
                name,
                place,
                earliest,
                latest,
                teams,
                ..
            } => self.check_task(&name, &place, earliest, latest, teams),
            Entry::Cancel { task } => self.find_task(&task),
            Entry::Move {
                task,
                earliest,
                latest,
            } => self.check_move(&task, earliest, latest),
            Entry::Longer { task, .. } => self.find_task(&task),
            Entry::Needs { task, teams } => self.check_needs(&task, teams),
            Entry::Sick { team } => self.find_team(&team),
            Entry::Shift { team, from, until } => self.check_shift(&team, from, until),
            Entry::Skill { team, .. } => self.find_team(&team),
            Entry::Unskill { team, .. } => self.find_team(&team),
            Entry::Plan { .. } | Entry::Now { .. } => self.check_times(),
            Entry::Thaw { task } => self.find_task(&task),
        }
    }

    /// Whether a place has the name.
    fn has_place(&self, name: &Name) -> bool
        ensures { result ≡ has_place self.now name.now }
    {
        self.places.contains(name)
    }

    /// Whether a team has the name.
    fn has_team(&self, name: &Name) -> bool
        ensures { result ≡ has_team self.now name.now }
    {
        self.teams.contains_key(name)
    }

    /// Whether a task has the name.
    fn has_task(&self, name: &Name) -> bool
        ensures { result ≡ has_task self.now name.now }
    {
        self.tasks.contains_key(name)
    }

    fn check_place(&self, name: &Name) -> Result<(), ChangeFault>
        ensures { result ≡ answer_by_lists self.now (Entry.Place name.now) }
    {
        if self.places.len() >= MOST_PLACES {
            return Err(ChangeFault::TooMany);
        }
        if self.has_place(name) {
            return Err(ChangeFault::SameName);
        }
        Ok(())
    }

    fn check_way(&self, from: &Name, to: &Name) -> Result<(), ChangeFault>
        ensures { (minutes : ℕ) →
            result ≡ answer_by_lists self.now (Entry.RouteTime from.now to.now minutes) }
    {
        if !self.has_place(from) || !self.has_place(to) {
            return Err(ChangeFault::NoPlace);
        }
        Ok(())
    }

    fn check_team(&self, name: &Name, home: &Name, from: u32, until: u32) -> Result<(), ChangeFault>
        requires { until ≤ LAST_MINUTE }
        ensures { (skills : ℕ) →
            result ≡ answer_by_lists self.now (Entry.Team name.now home.now from until skills) }
    {
        if self.teams.len() >= MOST_TEAMS {
            return Err(ChangeFault::TooMany);
        }
        if self.has_team(name) {
            return Err(ChangeFault::SameName);
        }
        if !self.has_place(home) {
            return Err(ChangeFault::NoPlace);
        }
        if is_bad_shift(from, until) {
            return Err(ChangeFault::BadShift);
        }
        Ok(())
    }

    fn check_task(
        &self,
        name: &Name,
        place: &Name,
        earliest: u32,
        latest: u32,
        teams: u32,
    ) -> Result<(), ChangeFault>
        requires { latest ≤ LAST_MINUTE }
        ensures { (minutes skills : ℕ) →
            let task = Entry.Task name.now place.now earliest latest minutes teams skills in
            result ≡ answer_by_lists self.now task }
    {
        if self.tasks.len() >= MOST_TASKS {
            return Err(ChangeFault::TooMany);
        }
        if self.has_task(name) {
            return Err(ChangeFault::SameName);
        }
        if !self.has_place(place) {
            return Err(ChangeFault::NoPlace);
        }
        if is_bad_window(earliest, latest) {
            return Err(ChangeFault::BadWindow);
        }
        if is_bad_count(teams) {
            return Err(ChangeFault::BadTeams);
        }
        Ok(())
    }

    /// Refuses a name that no task has.
    fn find_task(&self, task: &Name) -> Result<(), ChangeFault>
        ensures { result ≡ answer_by_lists self.now (Entry.Cancel task.now) }
    {
        if !self.has_task(task) {
            return Err(ChangeFault::NoTask);
        }
        Ok(())
    }

    fn check_move(&self, task: &Name, earliest: u32, latest: u32) -> Result<(), ChangeFault>
        requires { latest ≤ LAST_MINUTE }
        ensures { result ≡ answer_by_lists self.now (Entry.Move task.now earliest latest) }
    {
        if !self.has_task(task) {
            return Err(ChangeFault::NoTask);
        }
        if is_bad_window(earliest, latest) {
            return Err(ChangeFault::BadWindow);
        }
        Ok(())
    }

    fn check_needs(&self, task: &Name, teams: u32) -> Result<(), ChangeFault>
        ensures { result ≡ answer_by_lists self.now (Entry.Needs task.now teams) }
    {
        if !self.has_task(task) {
            return Err(ChangeFault::NoTask);
        }
        if is_bad_count(teams) {
            return Err(ChangeFault::BadTeams);
        }
        Ok(())
    }

    /// Refuses a name that no team has.
    fn find_team(&self, team: &Name) -> Result<(), ChangeFault>
        ensures { result ≡ answer_by_lists self.now (Entry.Sick team.now) }
    {
        if !self.has_team(team) {
            return Err(ChangeFault::NoTeam);
        }
        Ok(())
    }

    fn check_shift(&self, team: &Name, from: u32, until: u32) -> Result<(), ChangeFault>
        requires { until ≤ LAST_MINUTE }
        ensures { result ≡ answer_by_lists self.now (Entry.Shift team.now from until) }
    {
        if !self.has_team(team) {
            return Err(ChangeFault::NoTeam);
        }
        if is_bad_shift(from, until) {
            return Err(ChangeFault::BadShift);
        }
        Ok(())
    }
}
