// The records of each kind: their rows of fields, and the entries that they stand for.
ghost use Rattle.std.specs.Prelude.{◌≡◌, ◌<◌, ◌+◌, length};
ghost use Rattle.crew_terms.specs.Name.{IsName};
ghost use Rattle.day_terms.specs.Records.{field_of};
ghost use Rattle.day_terms.specs.Forms.{form_of, place_form, travel_form, route_time_form, default_travel_form, team_form, task_form, cancel_form, move_form, longer_form, needs_form, sick_form, shift_form, skill_form, unskill_form, plan_form, now_form, thaw_form};
ghost use Rattle.day_records.specs.Rows.{ReadsFields};

use crate::skills::read_skills;
use crate::words::RecordWords;
use crew_terms::{LAST_MINUTE, LONGEST_NAME, MOST_NODES, Name, SKILLS};
use day_terms::{Entry, GREATEST_COUNT, RecordKind};
use field_table::{Field, FieldFault, Kind, Words, field, fields};

const NAME: Field = Field {
    low: 1,
    high: LONGEST_NAME as i64,
    kind: Kind::Name,
};

const MINUTES: Field = field!(Number(0, LAST_MINUTE as i64));

const DURATION: Field = field!(Number(1, LAST_MINUTE as i64));

const TIME: Field = field!(Clock(0, LAST_MINUTE as i64));

const COUNT: Field = field!(Number(0, GREATEST_COUNT as i64));

const SKILL: Field = field!(Number(0, SKILLS as i64 - 1));

const NODES: Field = field!(Number(0, MOST_NODES as i64));

/// The name at a place where one stands.
fn name_at(words: &RecordWords<'_>, place: usize) -> Name
    requires within { place < length words.now }
    requires name { IsName (field_of words.now place) }
    ensures { result ≡ field_of words.now place }
{
    Name::read(words.word(place)).unwrap()
}

fn read_place(words: &RecordWords<'_>) -> Result<Entry, FieldFault>
    requires { length words.now ≡ 2 }
    ensures { ReadsFields place_form words.now result }
{
    fields!(words, _name: NAME; else fault => fault);
    Ok(Entry::Place {
        name: name_at(words, 1),
    })
}

fn read_travel(words: &RecordWords<'_>) -> Result<Entry, FieldFault>
    requires { length words.now ≡ 4 }
    ensures { ReadsFields travel_form words.now result }
{
    fields!(words, _from: NAME, _to: NAME, minutes: MINUTES; else fault => fault);
    Ok(Entry::Travel {
        from: name_at(words, 1),
        to: name_at(words, 2),
        minutes: minutes as u32,
    })
}

fn read_route_time(words: &RecordWords<'_>) -> Result<Entry, FieldFault>
    requires { length words.now ≡ 4 }
    ensures { ReadsFields route_time_form words.now result }
{
    fields!(words, _from: NAME, _to: NAME, minutes: MINUTES; else fault => fault);
    Ok(Entry::RouteTime {
        from: name_at(words, 1),
        to: name_at(words, 2),
        minutes: minutes as u32,
    })
}

fn read_default_travel(words: &RecordWords<'_>) -> Result<Entry, FieldFault>
    requires { length words.now ≡ 2 }
    ensures { ReadsFields default_travel_form words.now result }
{
    fields!(words, minutes: MINUTES; else fault => fault);
    Ok(Entry::DefaultTravel {
        minutes: minutes as u32,
    })
}

fn read_team(words: &RecordWords<'_>) -> Result<Entry, FieldFault>
    requires { length words.now ≡ 6 }
    ensures { ReadsFields team_form words.now result }
{
    fields!(words, _name: NAME, _home: NAME, from: TIME, until: TIME; else fault => fault);
    let skills = read_skills(words, 5)?;
    Ok(Entry::Team {
        name: name_at(words, 1),
        home: name_at(words, 2),
        from: from as u32,
        until: until as u32,
        skills,
    })
}

fn read_task(words: &RecordWords<'_>) -> Result<Entry, FieldFault>
    requires { length words.now ≡ 8 }
    ensures { ReadsFields task_form words.now result }
{
    fields!(
        words, _name: NAME, _place: NAME, earliest: TIME, latest: TIME, minutes: DURATION, teams: COUNT;
        else fault => fault
    );
    let skills = read_skills(words, 7)?;
    Ok(Entry::Task {
        name: name_at(words, 1),
        place: name_at(words, 2),
        earliest: earliest as u32,
        latest: latest as u32,
        minutes: minutes as u32,
        teams: teams as u32,
        skills,
    })
}

fn read_cancel(words: &RecordWords<'_>) -> Result<Entry, FieldFault>
    requires { length words.now ≡ 2 }
    ensures { ReadsFields cancel_form words.now result }
{
    fields!(words, _task: NAME; else fault => fault);
    Ok(Entry::Cancel {
        task: name_at(words, 1),
    })
}

fn read_move(words: &RecordWords<'_>) -> Result<Entry, FieldFault>
    requires { length words.now ≡ 4 }
    ensures { ReadsFields move_form words.now result }
{
    fields!(words, _task: NAME, earliest: TIME, latest: TIME; else fault => fault);
    Ok(Entry::Move {
        task: name_at(words, 1),
        earliest: earliest as u32,
        latest: latest as u32,
    })
}

fn read_longer(words: &RecordWords<'_>) -> Result<Entry, FieldFault>
    requires { length words.now ≡ 3 }
    ensures { ReadsFields longer_form words.now result }
{
    fields!(words, _task: NAME, minutes: DURATION; else fault => fault);
    Ok(Entry::Longer {
        task: name_at(words, 1),
        minutes: minutes as u32,
    })
}

fn read_needs(words: &RecordWords<'_>) -> Result<Entry, FieldFault>
    requires { length words.now ≡ 3 }
    ensures { ReadsFields needs_form words.now result }
{
    fields!(words, _task: NAME, teams: COUNT; else fault => fault);
    Ok(Entry::Needs {
        task: name_at(words, 1),
        teams: teams as u32,
    })
}

fn read_sick(words: &RecordWords<'_>) -> Result<Entry, FieldFault>
    requires { length words.now ≡ 2 }
    ensures { ReadsFields sick_form words.now result }
{
    fields!(words, _team: NAME; else fault => fault);
    Ok(Entry::Sick {
        team: name_at(words, 1),
    })
}

fn read_shift(words: &RecordWords<'_>) -> Result<Entry, FieldFault>
    requires { length words.now ≡ 4 }
    ensures { ReadsFields shift_form words.now result }
{
    fields!(words, _team: NAME, from: TIME, until: TIME; else fault => fault);
    Ok(Entry::Shift {
        team: name_at(words, 1),
        from: from as u32,
        until: until as u32,
    })
}

fn read_skill(words: &RecordWords<'_>) -> Result<Entry, FieldFault>
    requires { length words.now ≡ 3 }
    ensures { ReadsFields skill_form words.now result }
{
    fields!(words, _team: NAME, skill: SKILL; else fault => fault);
    Ok(Entry::Skill {
        team: name_at(words, 1),
        skill: skill as u32,
    })
}

fn read_unskill(words: &RecordWords<'_>) -> Result<Entry, FieldFault>
    requires { length words.now ≡ 3 }
    ensures { ReadsFields unskill_form words.now result }
{
    fields!(words, _team: NAME, skill: SKILL; else fault => fault);
    Ok(Entry::Unskill {
        team: name_at(words, 1),
        skill: skill as u32,
    })
}

fn read_plan(words: &RecordWords<'_>) -> Result<Entry, FieldFault>
    requires { length words.now ≡ 2 }
    ensures { ReadsFields plan_form words.now result }
{
    fields!(words, nodes: NODES; else fault => fault);
    Ok(Entry::Plan {
        nodes: nodes as u32,
    })
}

fn read_now(words: &RecordWords<'_>) -> Result<Entry, FieldFault>
    requires { length words.now ≡ 2 }
    ensures { ReadsFields now_form words.now result }
{
    fields!(words, time: TIME; else fault => fault);
    Ok(Entry::Now { time: time as u32 })
}

fn read_thaw(words: &RecordWords<'_>) -> Result<Entry, FieldFault>
    requires { length words.now ≡ 2 }
    ensures { ReadsFields thaw_form words.now result }
{
    fields!(words, _task: NAME; else fault => fault);
    Ok(Entry::Thaw {
        task: name_at(words, 1),
    })
}

/// The entry of a record of the kind that has the kind's number of fields, or the first bad field.
pub(crate) fn read_row(kind: RecordKind, words: &RecordWords<'_>) -> Result<Entry, FieldFault>
    requires { length words.now ≡ length (form_of kind).slots + 1 }
    ensures { ReadsFields (form_of kind) words.now result }
{
    match kind {
        RecordKind::Place => read_place(words),
        RecordKind::Travel => read_travel(words),
        RecordKind::RouteTime => read_route_time(words),
        RecordKind::DefaultTravel => read_default_travel(words),
        RecordKind::Team => read_team(words),
        RecordKind::Task => read_task(words),
        RecordKind::Cancel => read_cancel(words),
        RecordKind::Move => read_move(words),
        RecordKind::Longer => read_longer(words),
        RecordKind::Needs => read_needs(words),
        RecordKind::Sick => read_sick(words),
        RecordKind::Shift => read_shift(words),
        RecordKind::Skill => read_skill(words),
        RecordKind::Unskill => read_unskill(words),
        RecordKind::Plan => read_plan(words),
        RecordKind::Now => read_now(words),
        RecordKind::Thaw => read_thaw(words),
    }
}
