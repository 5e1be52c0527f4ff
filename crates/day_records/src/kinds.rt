// The kinds of records: their first fields, and how many fields they have.
ghost use Rattle.std.specs.Prelude.{◌≡◌, ◌+◌, length, MatchOption};
ghost use Rattle.day_terms.specs.Forms.{form_of};
ghost use Rattle.day_records.specs.Rows.{IsKeyOf, IsNoKey};

use day_terms::RecordKind;

/// The kind of the records whose first field this is; None where no kind has it.
pub(crate) fn kind_of(key: &[u8]) -> Option<RecordKind>
    ensures { MatchOption result (IsNoKey key.now) (IsKeyOf key.now) }
{
    match key {
        b"place" => Some(RecordKind::Place),
        b"travel" => Some(RecordKind::Travel),
        b"route_time" => Some(RecordKind::RouteTime),
        b"default_travel" => Some(RecordKind::DefaultTravel),
        b"team" => Some(RecordKind::Team),
        b"task" => Some(RecordKind::Task),
        b"cancel" => Some(RecordKind::Cancel),
        b"move" => Some(RecordKind::Move),
        b"longer" => Some(RecordKind::Longer),
        b"needs" => Some(RecordKind::Needs),
        b"sick" => Some(RecordKind::Sick),
        b"shift" => Some(RecordKind::Shift),
        b"skill" => Some(RecordKind::Skill),
        b"unskill" => Some(RecordKind::Unskill),
        b"plan" => Some(RecordKind::Plan),
        b"now" => Some(RecordKind::Now),
        b"thaw" => Some(RecordKind::Thaw),
        _ => None,
    }
}

/// How many fields the records of the kind have, the first among them.
pub(crate) fn field_count(kind: RecordKind) -> usize
    ensures { result ≡ length (form_of kind).slots + 1 }
{
    match kind {
        RecordKind::Place | RecordKind::DefaultTravel | RecordKind::Plan => 2,
        RecordKind::Cancel | RecordKind::Sick | RecordKind::Now | RecordKind::Thaw => 2,
        RecordKind::Longer | RecordKind::Needs | RecordKind::Skill | RecordKind::Unskill => 3,
        RecordKind::Travel | RecordKind::RouteTime | RecordKind::Move | RecordKind::Shift => 4,
        RecordKind::Team => 6,
        RecordKind::Task => 8,
    }
}
