// The bound of minute prices.
ghost use Rattle.std.specs.Prelude.{◌≡◌, ◌≤◌, ◌<◌, ◌*◌, ◌^◌, length, map};
ghost use Rattle.std.specs.List.{range_with_len};
ghost use Rattle.crew_terms.specs.Leaf.{worth_of};
ghost use Rattle.crew_terms.specs.Total.{total};
ghost use Rattle.crew_terms.specs.declared.TheConstants.{MOST_PRICE, MOST_TEAMS, MOST_TEAMS_PER_TASK};
ghost use Rattle.potentials.specs.Sums.{IsBoundedBy};
ghost use Rattle.squeeze_terms.specs.Bound.{minute_bound as bound_of_minutes, minute_term};
ghost use Rattle.squeeze_terms.specs.MinutePrices.{AreMinutePrices};
ghost use Rattle.squeeze_terms.specs.Possible.{possible_minutes};

use crate::possible::PossibleMinutes;
use crate::prices::MinutePrices;
use crate::terms::term_of;
use crew_instance::Instance;

/// What task `j` adds to the bound.
fn term_at(instance: &Instance, possible: &PossibleMinutes, prices: &MinutePrices, j: u32) -> i128
    requires task { j < length instance.now.tasks }
    requires possible { possible.now ≡ map (possible_minutes instance.now)
        (range_with_len 0 (length instance.now.tasks)) }
    requires prices { AreMinutePrices instance.now prices.now }
    ensures term { result ≡ minute_term instance.now prices.now j }
    ensures range { IsBoundedBy (MOST_TEAMS_PER_TASK * MOST_PRICE) result }
{
    term_of(instance, prices, possible.of_task(j), j).term
}

/// What all tasks add to the bound.
fn sum_of_terms(instance: &Instance, possible: &PossibleMinutes, prices: &MinutePrices) -> i128
    requires possible { possible.now ≡ map (possible_minutes instance.now)
        (range_with_len 0 (length instance.now.tasks)) }
    requires prices { AreMinutePrices instance.now prices.now }
    ensures sum { result ≡ total (length instance.now.tasks) (minute_term instance.now prices.now) }
    ensures range { IsBoundedBy (MOST_TEAMS_PER_TASK * MOST_PRICE * length instance.now.tasks)
        result }
{
    let mut sum = 0;
    for j in 0..instance.tasks() as u32 {
        sum += term_at(instance, possible, prices, j);
    }
    sum
}

fn sum_of_worths(worths: &[i64]) -> i128
    requires { length worths.now ≤ MOST_TEAMS }
    ensures sum { result ≡ total (length worths.now) (worth_of worths.now) }
    ensures range { IsBoundedBy (2 ^ 63 * length worths.now) result }
{
    let mut sum = 0;
    for worth in worths {
        sum += i128::from(*worth);
    }
    sum
}

/// The bound that minute prices and a worth for each team give, in 1/D of a task: over all tasks the least that their teams
/// earn together at a possible minute, at most D; without the worths. It takes no memory.
pub fn minute_bound(
    instance: &Instance,
    possible: &PossibleMinutes,
    prices: &MinutePrices,
    worths: &[i64],
) -> i128
    requires possible { possible.now ≡ map (possible_minutes instance.now)
        (range_with_len 0 (length instance.now.tasks)) }
    requires prices { AreMinutePrices instance.now prices.now }
    requires worths { length worths.now ≡ length instance.now.teams }
    ensures { result ≡ bound_of_minutes instance.now prices.now worths.now }
{
    // It is known from here on that the instance keeps its own limits.
    let _ = instance.tasks();
    let terms = sum_of_terms(instance, possible, prices);
    terms - sum_of_worths(worths)
}
