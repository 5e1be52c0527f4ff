// The tree, the prices and the causes of a search after a step.
ghost use Rattle.std.specs.Prelude.{◌≡◌, ◌++◌, ◌<◌, ◌*◌, ◌^◌, ℕ, ℤ, length, unwrap_or, vec_capacity, OnErr, OnOk};
ghost use Rattle.crew_terms.specs.declared.TheConstants.{MOST_NODES};
ghost use Rattle.search_tree.specs.Keyed.{IsKey, IsKeyed, IsWaiting};
ghost use Rattle.node_solver.specs.Plans.{now_after};
ghost use Rattle.search_core.specs.Settled.{IsPut, IsPutClosed, IsPutSplit, number_of, option_items};

use crate::causes::Cause;
use crate::finding::Ending;
use crate::handing::Handed;
use crew_instance::{Plan, unassigned};
use kept_prices::KeptPrices;
use search_tree::{Choice, KeyedTree};
use std::alloc::AllocError;

/// Closes the leaf under the key by these prices.
fn put_closed(
    keyed: &mut KeyedTree,
    prices: &mut Vec<KeptPrices>,
    key: usize,
    kept: KeptPrices,
) -> Result<(), AllocError>
    requires open { IsKey keyed.old key }
    requires few_prices { length prices.old.items < 2 ^ 32 }
    ensures put { (n : ℕ) (bound : ℤ) → IsWaiting keyed.old key n bound →
        OnOk result (IsPutClosed keyed.old keyed.new prices.old.items prices.new.items key n kept) }
    ensures keyed { OnOk result (IsKeyed keyed.new) }
    ensures err_keyed { OnErr result (keyed.new ≡ keyed.old) }
    ensures err_prices { OnErr result (prices.new.items ≡ prices.old.items) }
{
    let number = prices.len() as u32;
    prices.push(kept)?;
    keyed.close(key, number);
    // What always holds of the tree is known from here on.
    let _ = keyed.len();
    Ok(())
}

/// The number of the prices that are handed on.
fn number_of(own: u32, next: u32, found: &Option<KeptPrices>) -> u32
    ensures { result ≡ number_of own next found.now }
{
    match found {
        Some(_) => next,
        None => own,
    }
}

/// Puts the prices last, if there are any.
fn push_some(prices: &mut Vec<KeptPrices>, found: Option<KeptPrices>)
    requires { length prices.old.items < vec_capacity prices.old }
    ensures { prices.new.items ≡ prices.old.items ++ option_items found }
{
    if let Some(kept) = found {
        prices.push(kept).unwrap();
    }
}

/// Splits the leaf under the key.
fn put_split(
    keyed: &mut KeyedTree,
    prices: &mut Vec<KeptPrices>,
    causes: &mut Vec<Cause>,
    key: usize,
    own: u32,
    choice: Choice,
    cause: Cause,
    handed: Handed,
) -> Result<(), AllocError>
    requires open { IsKey keyed.old key }
    requires room { length keyed.old.nodes < 2 * MOST_NODES }
    requires few_prices { length prices.old.items < 2 ^ 32 }
    requires few_causes { length causes.old.items < 2 ^ 32 }
    ensures put { (n : ℕ) (bound : ℤ) → IsWaiting keyed.old key n bound →
        OnOk result (IsPutSplit keyed.old keyed.new prices.old.items prices.new.items
        causes.old.items causes.new.items key n own choice cause handed) }
    ensures keyed { OnOk result (IsKeyed keyed.new) }
    ensures err_keyed { OnErr result (keyed.new ≡ keyed.old) }
    ensures err_prices { OnErr result (prices.new.items ≡ prices.old.items) }
    ensures err_causes { OnErr result (causes.new.items ≡ causes.old.items) }
{
    causes.reserve(1)?;
    prices.reserve(1)?;
    let Handed {
        prices: found,
        bounds,
    } = handed;
    let number = number_of(own, prices.len() as u32, &found);
    keyed.split(key, choice, causes.len() as u32, number, bounds)?;
    push_some(prices, found);
    causes.push(cause).unwrap();
    let _ = keyed.len();
    Ok(())
}

/// Puts what a node ends with into the tree, the prices and the causes. After want of memory they are as before.
pub(crate) fn put_ending(
    keyed: &mut KeyedTree,
    prices: &mut Vec<KeptPrices>,
    causes: &mut Vec<Cause>,
    key: usize,
    own: u32,
    now: u32,
    ending: Ending,
) -> Result<(), AllocError>
    requires open { IsKey keyed.old key }
    requires room { length keyed.old.nodes < 2 * MOST_NODES }
    requires few_prices { length prices.old.items < 2 ^ 32 }
    requires few_causes { length causes.old.items < 2 ^ 32 }
    ensures put { (n : ℕ) (bound : ℤ) → IsWaiting keyed.old key n bound →
        OnOk result (IsPut keyed.old keyed.new prices.old.items prices.new.items causes.old.items
        causes.new.items key n own now ending) }
    ensures keyed { OnOk result (IsKeyed keyed.new) }
    ensures err_keyed { OnErr result (keyed.new ≡ keyed.old) }
    ensures err_prices { OnErr result (prices.new.items ≡ prices.old.items) }
    ensures err_causes { OnErr result (causes.new.items ≡ causes.old.items) }
{
    match ending {
        Ending::Closed(kept) => put_closed(keyed, prices, key, kept),
        Ending::Split {
            choice,
            why,
            handed,
        } => put_split(
            keyed,
            prices,
            causes,
            key,
            own,
            choice,
            Cause { now, why },
            handed,
        ),
    }
}

/// Keeps the plan that was found, if there is one.
pub(crate) fn keep_plan(plan: &mut Plan, found: Option<Plan>)
    ensures { plan.new ≡ unwrap_or found plan.old }
{
    if let Some(better) = found {
        *plan = better;
    }
}

/// How many tasks the best plan leaves unassigned, with the one that was found if there is one.
pub(crate) fn count_after(best: u32, found: &Option<Plan>) -> u32
    ensures { result ≡ now_after best found.now }
{
    match found {
        Some(plan) => unassigned(plan),
        None => best,
    }
}
