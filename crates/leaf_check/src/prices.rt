// The numbers of a line of prices, as the prices of tasks or of required pairs.
ghost use Rattle.std.specs.Prelude.{◌≡◌, ◌≤◌, ◌<◌, ◌+◌, ℕ, IsTrue, length, pos, slice_index_or, if◌then◌else◌};
ghost use Rattle.std.specs.List.{AllByRecursion};
ghost use Rattle.crew_terms.specs.Leaf.{IsPrice, rho_of};
ghost use Rattle.crew_terms.specs.Limits.{tasks_in, teams_in};
ghost use Rattle.crew_terms.specs.Minutes.{required_teams};
ghost use Rattle.potentials.specs.Prices.{with_rho};
ghost use Rattle.leaf_check.specs.Prices.{ArePairsGiven, ArePricesIn, SamePairsBut, requires_pair};

use crew_terms::Pair;
use line_in::LineNumbers;
use node_limits::Limits;
use potentials::Prices;

/// Whether the node requires the pair.
fn is_required(limits: &Limits<'_>, k: u32, j: u32) -> bool
    requires team { k < teams_in limits.now.limits }
    requires task { j < tasks_in limits.now.limits }
    ensures { result ≡ requires_pair limits.now.limits k j }
{
    match limits.pair(k, j) {
        Pair::Required => true,
        Pair::Free | Pair::Forbidden => false,
    }
}

/// Sets the price of the pair, where the node requires it, to the number at the place `read`, and answers the
/// place of the next number.
fn set_if_required(
    prices: &mut Prices,
    limits: &Limits<'_>,
    k: u32,
    j: u32,
    given: &LineNumbers<'_>,
    read: usize,
) -> usize
    requires prices { ArePricesIn limits.now.limits prices.old }
    requires team { k < teams_in limits.now.limits }
    requires task { j < tasks_in limits.now.limits }
    requires range { AllByRecursion IsPrice given.now }
    requires few { read ≤ k }
    requires count { IsTrue (requires_pair limits.now.limits k j) → read < length given.now }
    ensures set { prices.new ≡ (if requires_pair limits.now.limits k j
        then with_rho prices.old k j (slice_index_or given.now read (pos 0)) else prices.old) }
    ensures next { result ≡ (if requires_pair limits.now.limits k j then read + 1 else read) }
{
    if is_required(limits, k, j) {
        prices.set_rho(k, j, given.get(read));
        read + 1
    } else {
        read
    }
}

/// Sets the prices of the required pairs of task `j` to the given numbers, by team.
pub fn set_extras(prices: &mut Prices, limits: &Limits<'_>, j: u32, given: &LineNumbers<'_>)
    requires prices { ArePricesIn limits.now.limits prices.old }
    requires task { j < tasks_in limits.now.limits }
    requires range { AllByRecursion IsPrice given.now }
    requires count { length given.now ≡ length (required_teams limits.now.limits j) }
    ensures prices { ArePricesIn limits.now.limits prices.new }
    ensures others { SamePairsBut j prices.old prices.new }
    ensures given { ArePairsGiven limits.now.limits j given.now prices.old prices.new }
{
    let mut read = 0;
    for k in 0..limits.instance().teams() as u32 {
        read = set_if_required(prices, limits, k, j, given, read);
    }
}

/// Sets the price of each pair of task `j` to 0.
fn clear_pairs(prices: &mut Prices, limits: &Limits<'_>, j: u32)
    requires prices { ArePricesIn limits.now.limits prices.old }
    requires task { j < tasks_in limits.now.limits }
    ensures prices { ArePricesIn limits.now.limits prices.new }
    ensures others { SamePairsBut j prices.old prices.new }
    ensures cleared { (k : ℕ) → k < teams_in limits.now.limits → rho_of prices.new k j ≡ pos 0 }
{
    for k in 0..limits.instance().teams() as u32 {
        prices.set_rho(k, j, 0);
    }
}

/// Sets the price of each task to the given number, and the price of each pair to 0.
pub fn set_prices(prices: &mut Prices, limits: &Limits<'_>, given: &LineNumbers<'_>)
    requires prices { ArePricesIn limits.now.limits prices.old }
    requires range { AllByRecursion IsPrice given.now }
    requires count { length given.now ≡ tasks_in limits.now.limits }
    ensures prices { ArePricesIn limits.now.limits prices.new }
    ensures tasks { prices.new.pi ≡ given.now }
    ensures pairs { (k j : ℕ) → k < teams_in limits.now.limits → j < tasks_in limits.now.limits
        → rho_of prices.new k j ≡ pos 0 }
{
    for j in 0..limits.instance().tasks() as u32 {
        clear_pairs(prices, limits, j);
        prices.set_pi(j, given.get(j as usize));
    }
}
