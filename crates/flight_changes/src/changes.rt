// What each entry that is not refused makes of the state.
ghost use Rattle.std.specs.Prelude.{◌≡◌, ◌≤◌, ◌<◌, ◌++◌, ◌∷◌, [], None, Some, true, false, length, find, IfOk, OnOk, OnErr};
ghost use Rattle.crew_terms.specs.Rules.{IsTask, IsTeam, IsShift, IsTeamCount, IsWindow};
ghost use Rattle.crew_terms.specs.declared.TheConstants.{LAST_MINUTE, MOST_TASKS, MOST_TEAMS, SKILLS};
ghost use Rattle.day_terms.specs.Ranges.{IsInRange};
ghost use Rattle.day_terms.specs.Refusal.{refusal_by_lists};
ghost use Rattle.flight_changes.specs.Limits.{IsState};
ghost use Rattle.day_terms.specs.State.{has_place, has_task, has_team, is_task, is_team, place_number, with_changed_task, with_changed_team};
ghost use Rattle.day_terms.specs.Entries.{after_entry};

use crate::lists::Lists;
use crew_terms::{Name, Task, Team};
use day_terms::Entry;
use std::alloc::AllocError;

impl Lists {
    /// Changes the lists by an entry that they do not refuse; one of a plan or of frozen jobs leaves them as they are.
    pub(crate) fn change(&mut self, entry: &Entry) -> Result<(), AllocError>
        requires range { IsInRange entry.now }
        requires accepted { refusal_by_lists self.old entry.now ≡ None }
        ensures ok { OnOk result (self.new ≡ after_entry self.old entry.now) }
        ensures err { OnErr result (self.new ≡ self.old) }
    {
        match *entry {
            Entry::Place { name } => self.add_place(name)?,
            Entry::Travel { from, to, minutes } => self.set_both_ways(from, to, minutes)?,
            Entry::RouteTime { from, to, minutes } => self.set_time(from, to, minutes)?,
            Entry::DefaultTravel { minutes } => self.set_default(minutes),
            Entry::Team {
                name,
                home,
                from,
                until,
                skills,
            } => self.new_team(name, &home, (from, until), skills)?,
            Entry::Task {
                name,
                place,
                earliest,
                latest,
                minutes,
                teams,
                skills,
            } => self.new_task(name, &place, (earliest, latest), minutes, teams, skills)?,
            Entry::Cancel { task } => self.cancel(&task),
            Entry::Move {
                task,
                earliest,
                latest,
            } => self.set_window(&task, earliest, latest),
            Entry::Longer { task, minutes } => self.set_minutes(&task, minutes),
            Entry::Needs { task, teams } => self.set_teams(&task, teams),
            Entry::Sick { team } => self.drop_team(&team),
            Entry::Shift { team, from, until } => self.set_shift(&team, from, until),
            Entry::Skill { team, skill } => self.add_skill(&team, skill),
            Entry::Unskill { team, skill } => self.drop_skill(&team, skill),
            Entry::Plan { .. } | Entry::Now { .. } | Entry::Thaw { .. } => {
                let _ = &self.places;
            }
        }
        Ok(())
    }

    /// The lists after an entry that they do not refuse, with memory of their own.
    pub(crate) fn after(&self, entry: &Entry) -> Result<Lists, AllocError>
        requires range { IsInRange entry.now }
        requires accepted { refusal_by_lists self.now entry.now ≡ None }
        ensures { IfOk result (λ lists. lists ≡ after_entry self.now entry.now) }
    {
        let mut lists = self.copy()?;
        lists.change(entry)?;
        Ok(lists)
    }

    fn add_place(&mut self, name: Name) -> Result<(), AllocError>
        requires { refusal_by_lists self.old (Entry.Place name) ≡ None }
        ensures ok { OnOk result (self.new ≡ after_entry self.old (Entry.Place name)) }
        ensures err { OnErr result (self.new ≡ self.old) }
    {
        let _ = name.bytes();
        self.places.insert(name)?;
        Ok(())
    }

    fn set_time(&mut self, from: Name, to: Name, minutes: u32) -> Result<(), AllocError>
        requires { minutes ≤ LAST_MINUTE }
        ensures ok { OnOk result
            (self.new ≡ after_entry self.old (Entry.RouteTime from to minutes)) }
        ensures err { OnErr result (self.new ≡ self.old) }
    {
        self.times.insert((from, to), minutes)?;
        Ok(())
    }

    fn set_both_ways(&mut self, from: Name, to: Name, minutes: u32) -> Result<(), AllocError>
        requires { minutes ≤ LAST_MINUTE }
        ensures ok { OnOk result (self.new ≡ after_entry self.old (Entry.Travel from to minutes)) }
        ensures err { OnErr result (self.new ≡ self.old) }
    {
        self.times.reserve(2)?;
        self.times.insert((from, to), minutes).unwrap();
        self.times.insert((to, from), minutes).unwrap();
        Ok(())
    }

    fn set_default(&mut self, minutes: u32)
        requires { minutes ≤ LAST_MINUTE }
        ensures { self.new ≡ after_entry self.old (Entry.DefaultTravel minutes) }
    {
        self.default_minutes = Some(minutes);
    }

    /// The number of the place that has the name.
    fn number_of_place(&self, name: &Name) -> u32
        requires { has_place self.now name.now ≡ true }
        ensures number { result ≡ place_number self.now name.now }
        ensures below { result < length self.now.places }
    {
        self.places.get_index_of(name).unwrap() as u32
    }

    /// Adds a team at its home, with its shift.
    fn new_team(
        &mut self,
        name: Name,
        home: &Name,
        shift: (u32, u32),
        skills: u64,
    ) -> Result<(), AllocError>
        requires range { IsInRange (Entry.Team name home.now shift.0 shift.1 skills) }
        requires accepted { refusal_by_lists self.old
            (Entry.Team name home.now shift.0 shift.1 skills) ≡ None }
        ensures ok { OnOk result
            (self.new ≡ after_entry self.old (Entry.Team name home.now shift.0 shift.1 skills)) }
        ensures err { OnErr result (self.new ≡ self.old) }
    {
        let (from, until) = shift;
        let home = self.number_of_place(home);
        self.add_team(Team {
            name,
            home,
            from,
            until,
            skills,
        })
    }

    /// Adds a task at its place, with its window.
    fn new_task(
        &mut self,
        name: Name,
        place: &Name,
        window: (u32, u32),
        minutes: u32,
        teams: u32,
        skills: u64,
    ) -> Result<(), AllocError>
        requires range { IsInRange
            (Entry.Task name place.now window.0 window.1 minutes teams skills) }
        requires accepted { refusal_by_lists self.old
            (Entry.Task name place.now window.0 window.1 minutes teams skills) ≡ None }
        ensures ok { OnOk result (self.new ≡ after_entry self.old
            (Entry.Task name place.now window.0 window.1 minutes teams skills)) }
        ensures err { OnErr result (self.new ≡ self.old) }
    {
        let (earliest, latest) = window;
        let place = self.number_of_place(place);
        self.add_task(Task {
            name,
            place,
            earliest,
            latest,
            minutes,
            teams,
            skills,
        })
    }

    fn add_team(&mut self, team: Team) -> Result<(), AllocError>
        requires room { length self.old.teams < MOST_TEAMS }
        requires new { has_team self.old team.name ≡ false }
        requires home { team.home < length self.old.places }
        requires shift { IsShift team }
        ensures ok { OnOk result
            (self.new ≡ record self.old { teams = self.old.teams ++ team ∷ [] }) }
        ensures err { OnErr result (self.new ≡ self.old) }
    {
        let _ = team.name.bytes();
        self.teams.insert(team.name, team)?;
        Ok(())
    }

    fn add_task(&mut self, task: Task) -> Result<(), AllocError>
        requires room { length self.old.tasks < MOST_TASKS }
        requires new { has_task self.old task.name ≡ false }
        requires place { task.place < length self.old.places }
        requires window { IsWindow task }
        requires count { IsTeamCount task.teams }
        ensures ok { OnOk result
            (self.new ≡ record self.old { tasks = self.old.tasks ++ task ∷ [] }) }
        ensures err { OnErr result (self.new ≡ self.old) }
    {
        let _ = task.name.bytes();
        self.tasks.insert(task.name, task)?;
        Ok(())
    }

    fn cancel(&mut self, task: &Name)
        ensures { self.new ≡ after_entry self.old (Entry.Cancel task.now) }
    {
        self.tasks.shift_remove(task);
    }

    fn drop_team(&mut self, team: &Name)
        ensures { self.new ≡ after_entry self.old (Entry.Sick team.now) }
    {
        self.teams.shift_remove(team);
    }

    /// The task that has the name.
    fn task(&self, name: &Name) -> Task
        requires { has_task self.now name.now ≡ true }
        ensures task { find (is_task name.now) self.now.tasks ≡ Some result }
        ensures limits { IsState self.now }
    {
        *self.tasks.get(name).unwrap()
    }

    /// The team that has the name.
    fn team(&self, name: &Name) -> Team
        requires { has_team self.now name.now ≡ true }
        ensures team { find (is_team name.now) self.now.teams ≡ Some result }
        ensures limits { IsState self.now }
    {
        *self.teams.get(name).unwrap()
    }

    /// Puts the task in the place of the one that has its name.
    fn put_task(&mut self, task: Task)
        requires known { has_task self.old task.name ≡ true }
        requires fits { IsTask (length self.old.places) task }
        ensures { self.new ≡ with_changed_task self.old task.name (λ _. task) }
    {
        *self.tasks.get_mut(&task.name).unwrap() = task;
    }

    /// Puts the team in the place of the one that has its name.
    fn put_team(&mut self, team: Team)
        requires known { has_team self.old team.name ≡ true }
        requires fits { IsTeam (length self.old.places) team }
        ensures { self.new ≡ with_changed_team self.old team.name (λ _. team) }
    {
        *self.teams.get_mut(&team.name).unwrap() = team;
    }

    fn set_window(&mut self, task: &Name, earliest: u32, latest: u32)
        requires day { latest ≤ LAST_MINUTE }
        requires accepted { refusal_by_lists self.old (Entry.Move task.now earliest latest) ≡ None }
        ensures { self.new ≡ after_entry self.old (Entry.Move task.now earliest latest) }
    {
        let old = self.task(task);
        self.put_task(Task {
            earliest,
            latest,
            ..old
        });
    }

    fn set_minutes(&mut self, task: &Name, minutes: u32)
        requires some { 1 ≤ minutes }
        requires day { minutes ≤ LAST_MINUTE }
        requires accepted { refusal_by_lists self.old (Entry.Longer task.now minutes) ≡ None }
        ensures { self.new ≡ after_entry self.old (Entry.Longer task.now minutes) }
    {
        let old = self.task(task);
        self.put_task(Task { minutes, ..old });
    }

    fn set_teams(&mut self, task: &Name, teams: u32)
        requires { refusal_by_lists self.old (Entry.Needs task.now teams) ≡ None }
        ensures { self.new ≡ after_entry self.old (Entry.Needs task.now teams) }
    {
        let old = self.task(task);
        self.put_task(Task { teams, ..old });
    }

    fn set_shift(&mut self, team: &Name, from: u32, until: u32)
        requires day { until ≤ LAST_MINUTE }
        requires accepted { refusal_by_lists self.old (Entry.Shift team.now from until) ≡ None }
        ensures { self.new ≡ after_entry self.old (Entry.Shift team.now from until) }
    {
        let old = self.team(team);
        self.put_team(Team { from, until, ..old });
    }

    fn add_skill(&mut self, team: &Name, skill: u32)
        requires range { skill < SKILLS }
        requires accepted { refusal_by_lists self.old (Entry.Skill team.now skill) ≡ None }
        ensures { self.new ≡ after_entry self.old (Entry.Skill team.now skill) }
    {
        let old = self.team(team);
        self.put_team(Team {
            skills: old.skills | 1 << skill,
            ..old
        });
    }

    fn drop_skill(&mut self, team: &Name, skill: u32)
        requires range { skill < SKILLS }
        requires accepted { refusal_by_lists self.old (Entry.Unskill team.now skill) ≡ None }
        ensures { self.new ≡ after_entry self.old (Entry.Unskill team.now skill) }
    {
        let old = self.team(team);
        self.put_team(Team {
            skills: old.skills & !(1 << skill),
            ..old
        });
    }
}
