// A route of a team, as a key.
ghost use Rattle.std.specs.Prelude.{◌≡◌};
ghost use Rattle.route_terms.specs.Keys.{same_route, route_input};
ghost use Rattle.route_terms.specs.KeyLaws.{same_route_equiv, same_route_per, same_route_fed};

use crew_terms::Visit;
use std::borrow::CowSlice;
use std::hash::{Hash, Hasher};
use std::marker::Model;

/// A team, and the visits that it makes, in their order; the visits are the route's own, or lent to it.
///
/// In contracts: the team and the list of its visits.
#[derive(Debug, Drop)]
pub struct Route<'v> {
    team: u32,
    visits: CowSlice<'v, Visit>,
}

impl<'v> Model for Route<'v> {
    ghost use Rattle.crew_terms.specs.Limits.{Route as TeamRoute};
    ghost use Rattle.std.specs.Cow.{cow_slice_items};

    ghost Value = { TeamRoute };

    ghost view = { λ r. record { team = r.team; visits = cow_slice_items r.visits } };
}

impl<'v> Route<'v> {
    /// The route of the team with these visits.
    pub fn new(team: u32, visits: Vec<Visit>) -> Route<'v>
        ensures { result ≡ record { team = team; visits = visits.items } }
    {
        Route {
            team,
            visits: CowSlice::Owned(visits),
        }
    }

    /// The route of the team with these visits, which stay where they are.
    pub fn lent(team: u32, visits: &'v [Visit]) -> Route<'v>
        ensures { result ≡ record { team = team; visits = visits.now } }
    {
        Route {
            team,
            visits: CowSlice::Borrowed(visits),
        }
    }

    /// The team.
    pub fn team(&self) -> u32
        ensures { result ≡ self.now.team }
    {
        self.team
    }

    /// The visits, in their order.
    pub fn visits(&self) -> &[Visit]
        ensures { result.now ≡ self.now.visits }
    {
        self.visits.as_slice()
    }
}

impl<'v> PartialEq for Route<'v> {
    ghost eq = { same_route };

    ghost laws = { same_route_per };

    fn eq(&self, other: &Route<'v>) -> bool {
        self.team == other.team && self.visits() == other.visits()
    }
}

impl<'v> Eq for Route<'v> {
    ghost laws = { same_route_equiv };
}

impl<'v> Hash for Route<'v> {
    ghost hash_input = { route_input };

    ghost respects_eq = { same_route_fed };

    fn hash<H: Hasher>(&self, state: &mut H) {
        state.write_u32(self.team);
        for visit in self.visits.as_slice() {
            state.write_u32(visit.task);
            state.write_u32(visit.start);
        }
    }
}
