// Places and teams of a part, which are those of the whole.
ghost use Rattle.std.specs.Prelude.{◌≡◌, ◌<◌, ◌↔◌, [], length, IsTrue};

use crew_instance::Instance;

/// Whether the part has the places of the whole, in order.
pub(crate) fn has_same_places(whole: &Instance, part: &Instance) -> bool
    ensures { IsTrue result ↔ (part.now.places ≡ whole.now.places) }
{
    if part.places() != whole.places() {
        return false;
    }
    for p in 0..part.places() as u32 {
        if part.place(p) != whole.place(p) {
            return false;
        }
    }
    true
}

/// Whether the part has the teams of the whole, in order.
pub(crate) fn has_same_teams(whole: &Instance, part: &Instance) -> bool
    ensures { IsTrue result ↔ (part.now.teams ≡ whole.now.teams) }
{
    if part.teams() != whole.teams() {
        return false;
    }
    for k in 0..part.teams() as u32 {
        if part.team(k) != whole.team(k) {
            return false;
        }
    }
    true
}
