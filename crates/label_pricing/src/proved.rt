// What prices prove in a node.
ghost use Rattle.std.specs.Prelude.{◌≡◌, ◌≤◌, ◌<◌, ℕ, length, vec_capacity, IfSome};
ghost use Rattle.crew_terms.specs.Leaf.{IsOnRequired, IsWorth, Proves, worth_of, earned};
ghost use Rattle.crew_terms.specs.Limits.{tasks_in, teams_in};
ghost use Rattle.crew_terms.specs.declared.TheConstants.{MOST_TEAMS};
ghost use Rattle.label_pricing.specs.Alike.{AreAlike};
ghost use Rattle.label_pricing.specs.Work.{HasWorkRoom};
ghost use Rattle.label_pricing.specs.Worths.{AreWorths};
ghost use Rattle.potentials.specs.Prices.{ArePricesOf};

use crate::likeness::{alike, alike_teams_earn_alike};
use crate::workspace::Workspace;
use node_limits::Limits;
use potentials::{Prices, proves};

/// The bound that prices give with the worths of all teams, in 1/D of a task, and the greatest number of unassigned tasks
/// that it proves, of those from 0 to the number of tasks.
#[derive(Clone, Copy, Debug, PartialEq, Eq)]
pub struct Proved {
    pub bound: i128,
    pub count: u32,
}

/// The greatest number that the bound proves, of those from 0 to the number of tasks.
pub fn most_proved(limits: &Limits<'_>, bound: i128) -> u32
    ensures most { result ≤ tasks_in limits.now.limits }
    ensures proves { Proves bound result }
    ensures greatest { (l : ℕ) → l ≤ tasks_in limits.now.limits → Proves bound l → l ≤ result }
{
    let tasks = limits.instance().tasks() as u32;
    for l in 0..tasks {
        if !proves(bound, l + 1) {
            return l;
        }
    }
    tasks
}

/// The first team, if there is one before team `k`, that prices as team `k` does.
fn like_before(limits: &Limits<'_>, k: u32) -> Option<u32>
    requires { k < teams_in limits.now.limits }
    ensures { IfSome result (λ h. (h < k) × AreAlike limits.now.limits h k) }
{
    for h in 0..k {
        if alike(limits, h, k) {
            return Some(h);
        }
    }
    None
}

/// The worth of team `k`, where those of the teams before it are known: that of one of them that prices alike, if there
/// is one.
fn worth_after(
    limits: &Limits<'_>,
    k: u32,
    prices: &Prices,
    work: &mut Workspace,
    worths: &[i64],
) -> i64
    requires team { k < teams_in limits.now.limits }
    requires prices { ArePricesOf limits.now.limits prices.now }
    requires priced { IsOnRequired limits.now.limits prices.now }
    requires work { HasWorkRoom (length limits.now.limits.instance.places) work.old }
    requires count { length worths.now ≡ k }
    requires worths { (h : ℕ) → h < k → IsWorth limits.now.limits h (earned prices.now h)
        (worth_of worths.now h) }
    ensures worth { IsWorth limits.now.limits k (earned prices.now k) result }
    ensures work { HasWorkRoom (length limits.now.limits.instance.places) work.new }
{
    alike_teams_earn_alike();
    match like_before(limits, k) {
        Some(h) => worths[h as usize],
        None => work.price(limits, k, prices),
    }
}

/// Puts the worth of each team in the place of what the list holds. It takes no memory.
pub(crate) fn find_worths(
    limits: &Limits<'_>,
    prices: &Prices,
    work: &mut Workspace,
    worths: &mut Vec<i64>,
)
    requires prices { ArePricesOf limits.now.limits prices.now }
    requires priced { IsOnRequired limits.now.limits prices.now }
    requires work { HasWorkRoom (length limits.now.limits.instance.places) work.old }
    requires room { MOST_TEAMS ≤ vec_capacity worths.old }
    ensures worths { AreWorths limits.now.limits prices.now worths.new.items }
    ensures work { HasWorkRoom (length limits.now.limits.instance.places) work.new }
    ensures room { MOST_TEAMS ≤ vec_capacity worths.new }
{
    worths.clear();
    for k in 0..limits.instance().teams() as u32 {
        let worth = worth_after(limits, k, prices, work, worths);
        worths.push(worth).unwrap();
    }
}
