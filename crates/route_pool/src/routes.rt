// A route as its line in a dossier has it.
ghost use Rattle.std.specs.Prelude.{◌≡◌, List, IfOk};
ghost use Rattle.crew_terms.specs.declared.Visit.{Visit as TeamVisit};
ghost use Rattle.route_pool.specs.Numbers.{AreNumbersOf};

use line_in::LineNumbers;
use node_limits::Visit;
use route_terms::Route;
use std::alloc::{AllocError, Global};

/// The route of the team with the visits whose numbers stand at the end of its line: of each visit
/// its task, and the minute at which it begins.
pub fn read_route(
    alloc: Global,
    team: u32,
    numbers: &LineNumbers<'_>,
) -> Result<Route<'static>, AllocError>
    requires { (visits : List TeamVisit) × AreNumbersOf visits numbers.now }
    ensures { IfOk result (λ route. (visits : List TeamVisit) → AreNumbersOf visits numbers.now →
        route ≡ record { team = team; visits = visits }) }
{
    let count = numbers.len() / 2;
    let mut visits = Vec::with_capacity(alloc, count)?;
    for n in 0..count {
        visits.push(Visit {
            task: numbers.get(2 * n) as u32,
            start: numbers.get(2 * n + 1) as u32,
        })?;
    }
    Ok(Route::new(team, visits))
}
