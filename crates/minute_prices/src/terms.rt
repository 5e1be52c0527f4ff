// What the teams of a task earn least together at a possible minute.
ghost use Rattle.std.specs.Prelude.{◌≡◌, ◌<◌, ◌*◌, length};
ghost use Rattle.crew_terms.specs.declared.TheConstants.{MOST_PRICE, MOST_TEAMS_PER_TASK};
ghost use Rattle.potentials.specs.Sums.{IsBoundedBy};
ghost use Rattle.squeeze_terms.specs.Bound.{minute_term, teams_price};
ghost use Rattle.squeeze_terms.specs.MinutePrices.{AreMinutePrices};
ghost use Rattle.squeeze_terms.specs.Possible.{possible_minutes};
ghost use Rattle.squeeze_terms.specs.Run.{demand_minute};

use crate::prices::MinutePrices;
use crew_instance::Instance;
use crew_terms::D;

/// What a task adds to a bound, in 1/D of a task: the least that its teams earn together at a possible minute, at most D;
/// and the first such minute, where that is less than D.
#[derive(Clone, Copy, Debug, PartialEq, Eq)]
pub struct Least {
    pub term: i128,
    pub minute: Option<u32>,
}

/// What the teams of task `j` earn together where they begin it at minute `t`.
fn teams_price(instance: &Instance, prices: &MinutePrices, j: u32, t: u32) -> i128
    requires task { j < length instance.now.tasks }
    requires prices { AreMinutePrices instance.now prices.now }
    ensures price { result ≡ teams_price instance.now prices.now j t }
    ensures range { IsBoundedBy (MOST_TEAMS_PER_TASK * MOST_PRICE) result }
{
    let teams = instance.task(j).teams;
    i128::from(teams) * i128::from(prices.price(instance, j, t))
}

/// What task `j` adds to the bound of the prices, and its demand: the first possible minute at which its teams earn least
/// together, where that is less than one task. The minutes are the possible ones of the task.
pub fn term_of(instance: &Instance, prices: &MinutePrices, minutes: &[u32], j: u32) -> Least
    requires task { j < length instance.now.tasks }
    requires prices { AreMinutePrices instance.now prices.now }
    requires minutes { minutes.now ≡ possible_minutes instance.now j }
    ensures term { result.term ≡ minute_term instance.now prices.now j }
    ensures minute { result.minute ≡ demand_minute instance.now prices.now j }
    ensures range { IsBoundedBy (MOST_TEAMS_PER_TASK * MOST_PRICE) result.term }
{
    let mut best = Least {
        term: i128::from(D),
        minute: None,
    };
    for t in minutes {
        let price = teams_price(instance, prices, j, *t);
        if price < best.term {
            best = Least {
                term: price,
                minute: Some(*t),
            };
        }
    }
    best
}
