// Laws of a day: what its fields and records say, place by place; who has a name, and what an entry changes of
// the state, of its teams, tasks and times and of the rounds; and which refusal and which missing time is the first.
ghost use Rattle.std.specs.Prelude.{◌≡◌, ◌≢◌, ◌<◌, ◌^◌, ◌⊎◌, ◌↔◌, ◌++◌, ℕ, ℤ, Bool, true, false, List, [], ◌∷◌, All, Any, Contains, Some, None, Ok, count_by, length, slice_get, take};
ghost use Rattle.std.specs.Int.{bit_at};
ghost use Rattle.crew_terms.specs.declared.TheConstants.{SKILLS};
ghost use Rattle.crew_terms.specs.declared.Team.{Team};
ghost use Rattle.crew_terms.specs.declared.Task.{Task};
ghost use Rattle.crew_terms.specs.Instance.{minutes_between};
ghost use Rattle.crew_terms.specs.Rules.{IsShift, IsTeamCount, IsWindow};
ghost use Rattle.crew_terms.specs.Plan.{Plan as Jobs};
ghost use Rattle.crew_terms.specs.Words.{Words};
ghost use Rattle.field_table.specs.Fields.{Spells};
ghost use Rattle.field_table.specs.declared.fields.FieldFault.{FieldFault};
ghost use Rattle.field_table.specs.declared.fields.Kind.TheVariants.{Number};
ghost use Rattle.day_terms.specs.declared.Entry.{Entry};
ghost use Rattle.day_terms.specs.declared.Entry.TheVariants.{Cancel, Plan, Sick, Skill, Travel, Unskill};
ghost use Rattle.day_terms.specs.Forms.{Slot, Maker};
ghost use Rattle.day_terms.specs.Fields.{AllGive, IsFirstBad, SpellAll};
ghost use Rattle.day_terms.specs.Days.{ReadsRecord, SayEntries};
ghost use Rattle.day_terms.specs.State.{DayState, start_with, has_place, has_team, has_task, place_number, with_time_between, with_changed_team, with_changed_task};
ghost use Rattle.day_terms.specs.Entries.{after_entry, state_after};
ghost use Rattle.day_terms.specs.Rounds.{first_missing, lacks_time, round_at, rounds_from, rounds_of};
ghost use Rattle.day_terms.specs.Instances.{day_instance, minutes_by_name, minutes_given};
ghost use Rattle.day_terms.specs.Ranges.{IsDuration, IsMinute};
ghost use Rattle.day_terms.specs.Refusal.{AreTaken, Refusal, first_of, is_bad_count, is_bad_shift, is_bad_window, refusal_of, work_against};
ghost use Rattle.day_terms.specs.Laws.{HasGood, IsBadAt, IsFirstLack, is_plan};

/// A law: words spell numbers where they are as many, and each word spells the number at its place.
pub fn numbers_are_spelled_by_place()
    ensures { (words : Words) (numbers : List ℤ) → SpellAll words numbers
        ↔ ((length words ≡ length numbers)
        × ((k : ℕ) (word : List ℕ) (z : ℤ) → slice_get words k ≡ Some word →
        slice_get numbers k ≡ Some z → Spells Number word z)) }
{}

/// A law: records say entries where they are as many, and each record says the entry at its place.
pub fn entries_are_said_by_place()
    ensures { (records : List Words) (entries : List Entry) → SayEntries records entries
        ↔ ((length records ≡ length entries)
        × ((k : ℕ) (fields : Words) (entry : Entry) → slice_get records k ≡ Some fields →
        slice_get entries k ≡ Some entry → ReadsRecord fields (Ok entry))) }
{}

/// A law: fields make an entry exactly where each of them is good.
pub fn good_fields_make_an_entry()
    ensures { (slots : List Slot) (maker : Maker slots) (fields : Words) (place : ℕ) →
        ((entry : Entry) × AllGive slots maker fields place entry) ↔
        ((k : ℕ) → HasGood slots fields place k) }
{}

/// A law: the first bad field is one that is bad, and all before it are good.
pub fn first_bad_is_first()
    ensures { (slots : List Slot) (fields : Words) (place : ℕ) (fault : FieldFault) →
        IsFirstBad slots fields place fault ↔ ((n : ℕ) × IsBadAt slots fields place fault n) }
{}

/// A law: a place is known exactly where its name is among the places; a team, and a task, where one of them has
/// the name.
pub fn names_are_known()
    ensures place { (s : DayState) (name : List ℕ) →
        (has_place s name ≡ true) ↔ Contains s.places name }
    ensures team { (s : DayState) (name : List ℕ) →
        (has_team s name ≡ true) ↔ Any (λ t. t.name ≡ name) s.teams }
    ensures task { (s : DayState) (name : List ℕ) →
        (has_task s name ≡ true) ↔ Any (λ t. t.name ≡ name) s.tasks }
{}

/// A law: a place that is known has the number at which it stands, the first such; one that is not known would
/// have number 0.
pub fn places_are_numbered()
    ensures known { (s : DayState) (name : List ℕ) → has_place s name ≡ true →
        slice_get s.places (place_number s name) ≡ Some name }
    ensures first { (s : DayState) (name : List ℕ) →
        All (λ place. place ≢ name) (take (place_number s name) s.places) }
    ensures unknown { (s : DayState) (name : List ℕ) → has_place s name ≡ false →
        place_number s name ≡ 0 }
{}

/// A law: where the team of a name is changed there are as many teams as before, each at its place: one that has
/// the name is changed, and one of another name is as before.
pub fn team_changes_by_name()
    ensures count { (s : DayState) (name : List ℕ) (change : Team → Team) →
        length (with_changed_team s name change).teams ≡ length s.teams }
    ensures named { (s : DayState) (name : List ℕ) (change : Team → Team) (k : ℕ) (t : Team) →
        slice_get s.teams k ≡ Some t → t.name ≡ name →
        slice_get (with_changed_team s name change).teams k ≡ Some (change t) }
    ensures others { (s : DayState) (name : List ℕ) (change : Team → Team) (k : ℕ) (t : Team) →
        slice_get s.teams k ≡ Some t → t.name ≢ name →
        slice_get (with_changed_team s name change).teams k ≡ Some t }
{}

/// A law: where the task of a name is changed there are as many tasks as before, each at its place: one that has
/// the name is changed, and one of another name is as before.
pub fn task_changes_by_name()
    ensures count { (s : DayState) (name : List ℕ) (change : Task → Task) →
        length (with_changed_task s name change).tasks ≡ length s.tasks }
    ensures named { (s : DayState) (name : List ℕ) (change : Task → Task) (j : ℕ) (t : Task) →
        slice_get s.tasks j ≡ Some t → t.name ≡ name →
        slice_get (with_changed_task s name change).tasks j ≡ Some (change t) }
    ensures others { (s : DayState) (name : List ℕ) (change : Task → Task) (j : ℕ) (t : Task) →
        slice_get s.tasks j ≡ Some t → t.name ≢ name →
        slice_get (with_changed_task s name change).tasks j ≡ Some t }
{}

/// A law: after an entry that a team is sick, the teams are those that were there and have another name. Where one
/// team alone has the name, those before and behind it are left, in their order; where none has it, all are left.
pub fn sick_team_goes()
    ensures stays { (s : DayState) (name : List ℕ) (t : Team) →
        Contains (after_entry s (Sick name)).teams t ↔ (Contains s.teams t × (t.name ≢ name)) }
    ensures known { (s : DayState) (front back : List Team) (t : Team) → s.teams ≡ front ++ t ∷ back
        → All (λ other. other.name ≢ t.name) front → All (λ other. other.name ≢ t.name) back →
        (after_entry s (Sick t.name)).teams ≡ front ++ back }
    ensures unknown { (s : DayState) (name : List ℕ) → All (λ other. other.name ≢ name) s.teams →
        (after_entry s (Sick name)).teams ≡ s.teams }
{}

/// A law: after an entry that cancels a task, the tasks are those that were there and have another name. Where one
/// task alone has the name, those before and behind it are left, in their order; where none has it, all are left.
pub fn cancelled_task_goes()
    ensures stays { (s : DayState) (name : List ℕ) (t : Task) →
        Contains (after_entry s (Cancel name)).tasks t ↔ (Contains s.tasks t × (t.name ≢ name)) }
    ensures known { (s : DayState) (front back : List Task) (t : Task) → s.tasks ≡ front ++ t ∷ back
        → All (λ other. other.name ≢ t.name) front → All (λ other. other.name ≢ t.name) back →
        (after_entry s (Cancel t.name)).tasks ≡ front ++ back }
    ensures unknown { (s : DayState) (name : List ℕ) → All (λ other. other.name ≢ name) s.tasks →
        (after_entry s (Cancel name)).tasks ≡ s.tasks }
{}

/// A law: after an entry of a skill a team of its name has that skill, and those that it had; after an entry that
/// takes a skill away, those that it had but for that one.
pub fn one_skill_changes()
    ensures skill { (s : DayState) (name : List ℕ) (n k m : ℕ) (before after : Team) →
        slice_get s.teams k ≡ Some before → before.name ≡ name →
        slice_get (after_entry s (Skill name n)).teams k ≡ Some after →
        (bit_at after.skills m ≡ 1) ↔ ((m ≡ n) ⊎ (bit_at before.skills m ≡ 1)) }
    ensures unskill { (s : DayState) (name : List ℕ) (n k m : ℕ) (before after : Team) →
        slice_get s.teams k ≡ Some before → before.name ≡ name →
        slice_get (after_entry s (Unskill name n)).teams k ≡ Some after → n < SKILLS →
        before.skills < 2 ^ SKILLS →
        (bit_at after.skills m ≡ 1) ↔ ((m ≢ n) × (bit_at before.skills m ≡ 1)) }
{}

/// A law: where a time is given from one place to another, it is the one that is given between them; between
/// each other two, in this order, the time that is given is as before.
pub fn time_is_given()
    ensures given { (s : DayState) (from to : List ℕ) (minutes : ℕ) →
        minutes_given (with_time_between s from to minutes) from to ≡ Some minutes }
    ensures others { (s : DayState) (from to : List ℕ) (minutes : ℕ) (a b : List ℕ) →
        (a ≢ from) ⊎ (b ≢ to) →
        minutes_given (with_time_between s from to minutes) a b ≡ minutes_given s a b }
{}

/// A law: after an entry of travel its time is given both ways; between each other two places, in this order,
/// the time that is given is as before.
pub fn travel_is_both_ways()
    ensures there { (s : DayState) (from to : List ℕ) (minutes : ℕ) →
        minutes_given (after_entry s (Travel from to minutes)) from to ≡ Some minutes }
    ensures back { (s : DayState) (from to : List ℕ) (minutes : ℕ) →
        minutes_given (after_entry s (Travel from to minutes)) to from ≡ Some minutes }
    ensures others { (s : DayState) (from to : List ℕ) (minutes : ℕ) (a b : List ℕ) →
        (a ≢ from) ⊎ (b ≢ to) → (a ≢ to) ⊎ (b ≢ from) →
        minutes_given (after_entry s (Travel from to minutes)) a b ≡ minutes_given s a b }
{
    time_is_given();
}

/// A law: in the instance of a state the minutes between two places are told by their names. They are those that
/// were given; where none were, none to the place itself, and to another one the default.
pub fn minutes_are_by_name()
    ensures between { (s : DayState) (a b : ℕ) (from to : List ℕ) →
        slice_get s.places a ≡ Some from → slice_get s.places b ≡ Some to →
        minutes_between (day_instance s) a b ≡ minutes_by_name s from to }
    ensures given { (s : DayState) (from to : List ℕ) (minutes : ℕ) →
        minutes_given s from to ≡ Some minutes → minutes_by_name s from to ≡ minutes }
    ensures itself { (s : DayState) (place : List ℕ) → minutes_given s place place ≡ None →
        minutes_by_name s place place ≡ 0 }
    ensures others { (s : DayState) (from to : List ℕ) (minutes : ℕ) →
        minutes_given s from to ≡ None → from ≢ to → s.default_minutes ≡ Some minutes →
        minutes_by_name s from to ≡ minutes }
{}

/// A law: after no entries the state is that of the start; one more entry changes the state after those before it. Where
/// as many plans are known as there are rounds among entries, plans of later rounds change nothing of their state, of
/// their rounds and of whether they are taken.
pub fn state_goes_on()
    ensures none { (plans : List Jobs) → state_after plans [] ≡ start_with plans }
    ensures one_more { (plans : List Jobs) (entries : List Entry) (entry : Entry) →
        state_after plans (entries ++ entry ∷ []) ≡ after_entry (state_after plans entries) entry }
    ensures later { (plans more : List Jobs) (entries : List Entry) →
        length plans ≡ count_by is_plan entries →
        state_after (plans ++ more) entries ≡ record (state_after plans entries) { plans = more } }
    ensures rounds { (plans more : List Jobs) (entries : List Entry) →
        length plans ≡ count_by is_plan entries →
        rounds_of (plans ++ more) entries ≡ rounds_of plans entries }
    ensures taken { (plans more : List Jobs) (entries : List Entry) →
        length plans ≡ count_by is_plan entries →
        AreTaken (start_with plans) entries → AreTaken (start_with (plans ++ more)) entries }
{}

/// A law: whether an entry is refused, and the round that it begins, do not depend on the plans of rounds to come.
pub fn plans_to_come_decide_nothing()
    ensures refusal { (s : DayState) (plans : List Jobs) (entry : Entry) →
        refusal_of (record s { plans = plans }) entry ≡ refusal_of s entry }
    ensures round { (s : DayState) (plans : List Jobs) (entry : Entry) →
        round_at (record s { plans = plans }) entry ≡ round_at s entry }
{}

/// A law: where no job is frozen, frozen work forbids nothing.
pub fn free_days_forbid_nothing()
    ensures { (s : DayState) (entry : Entry) → s.frozen ≡ [] → work_against s entry ≡ None }
{}

/// A law: no entries have no rounds. Behind the rounds of entries come those of the entries after them, begun in
/// the state that the first come to; one more entry adds the round that it begins, if it is one of a plan.
pub fn rounds_go_on()
    ensures none { (plans : List Jobs) → rounds_of plans [] ≡ [] }
    ensures appended { (plans : List Jobs) (front back : List Entry) →
        rounds_of plans (front ++ back) ≡
        rounds_of plans front ++ rounds_from (state_after plans front) back }
    ensures one_more { (plans : List Jobs) (entries : List Entry) (entry : Entry) →
        rounds_of plans (entries ++ entry ∷ []) ≡
        rounds_of plans entries ++ round_at (state_after plans entries) entry }
{}

/// A law: there are as many rounds as plans among the entries, in the same order. Where a plan stands behind
/// other entries, the round with as many before it as there are plans among those has the instance of the state
/// after them, and the plan's budget.
pub fn rounds_are_of_plans()
    ensures count { (plans : List Jobs) (entries : List Entry) →
        length (rounds_of plans entries) ≡ count_by is_plan entries }
    ensures each { (plans : List Jobs) (front back : List Entry) (nodes : ℕ) →
        slice_get (rounds_of plans (front ++ Plan nodes ∷ back)) (count_by is_plan front)
        ≡ Some (record { instance = day_instance (state_after plans front); nodes = nodes }) }
{
    rounds_go_on();
}

/// A law: of the numbers that a record may say, those are refused that break the rules of an instance: of a shift, of
/// a window beside a task's duration, and of a number of teams.
pub fn refused_numbers_break_rules()
    ensures shift { (t : Team) → IsMinute t.until →
        (is_bad_shift t.from t.until ≡ false) ↔ IsShift t }
    ensures window { (t : Task) → IsMinute t.latest → IsDuration t.minutes →
        (is_bad_window t.earliest t.latest ≡ false) ↔ IsWindow t }
    ensures count { (n : ℕ) → (is_bad_count n ≡ false) ↔ IsTeamCount n }
{}

/// A law: of conditions, each with its refusal, the first that holds tells its refusal; where none holds, there
/// is none.
pub fn first_condition_counts()
    ensures first { (front back : List (Bool × Refusal)) (refusal : Refusal) →
        All (λ row. row.0 ≡ false) front →
        first_of (front ++ (true, refusal) ∷ back) ≡ Some refusal }
    ensures none { (rows : List (Bool × Refusal)) → All (λ row. row.0 ≡ false) rows →
        first_of rows ≡ None }
{}

/// A law: the missing time that is told is the first, by the place that it is from and then by that to which it
/// is; where none is told, none is missing between any two places.
pub fn missing_is_first()
    ensures told { (s : DayState) (from to : List ℕ) → first_missing s ≡ Some (from, to) →
        IsFirstLack s from to }
    ensures none { (s : DayState) → first_missing s ≡ None →
        All (λ from. All (λ to. lacks_time s (from, to) ≡ false) s.places) s.places }
{}
