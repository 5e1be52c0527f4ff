// Routes as values: a team and its visits, when two are equal, routes by names, and which of a pool's routes are kept.
#![tactic(auto)]

ghost use Rattle.std.specs.Prelude.{◌≡◌, List};
ghost use Rattle.crew_terms.specs.Instance.{Instance};
ghost use Rattle.crew_terms.specs.Limits.{Limits, Route as TeamRoute};
ghost use Rattle.crew_terms.specs.Rules.{IsInstance};
ghost use Rattle.route_terms.specs.Kept.{AreKeptIn};
ghost use Rattle.route_terms.specs.Named.{NamedRoute, IsOfInstance, by_names};

mod routes;

pub use routes::Route;

/// Routes of an instance that have the same names are equal.
pub fn names_mean_one_route()
    ensures { (i : Instance) (r s : TeamRoute) → IsInstance i → IsOfInstance i r → IsOfInstance i s
        → by_names i r ≡ by_names i s → r ≡ s }
{}

/// The routes that are kept in the limits of an instance are one list.
pub fn kept_routes_are_one()
    ensures { (n : Limits) (carried : List NamedRoute) (kept more : List TeamRoute)
        → IsInstance n.instance →
        AreKeptIn n carried kept → AreKeptIn n carried more → kept ≡ more }
{}
