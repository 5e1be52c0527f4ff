// Prices handed on.
ghost use Rattle.std.specs.Prelude.{◌≡◌, ◌≤◌, IfOk};
ghost use Rattle.crew_terms.specs.Leaf.{IsOnRequired};
ghost use Rattle.crew_terms.specs.Tree.{CanSplit, child};
ghost use Rattle.search_core.specs.Handed.{IsHanded};
ghost use Rattle.search_tree.specs.States.{DecidesProved};
ghost use Rattle.label_pricing.specs.Pricing.{HasRoom};
ghost use Rattle.potentials.specs.Prices.{ArePricesOf};
ghost use Rattle.search_terms.specs.BestFirst.{IsBoundIn};
ghost use Rattle.search_terms.specs.Proven.{PricesProve};

use crew_terms::{Choice, Side};
use kept_prices::KeptPrices;
use label_pricing::{Pricer, most_proved};
use node_limits::{Branch, Limits, narrow};
use potentials::Prices;
use search_laws::{less_is_proved, prices_prove_inside};
use std::alloc::{AllocError, Global};

/// The prices that are handed on, where they are not the node's own, and the bounds that they give in the two children.
#[derive(Drop)]
pub(crate) struct Handed {
    pub(crate) prices: Option<KeptPrices>,
    pub(crate) bounds: (i128, i128),
}

/// The bound that the prices give in the child on this side. It takes no memory, and leaves the limits as they were.
fn side_bound(
    limits: &mut Limits<'_>,
    pricer: &mut Pricer,
    choice: Choice,
    side: Side,
    prices: &Prices,
) -> i128
    requires can { CanSplit limits.old.limits choice }
    requires spare { 1 ≤ limits.old.spare }
    requires prices { ArePricesOf limits.old.limits prices.now }
    requires proved { PricesProve limits.old.limits prices.now 0 }
    requires room { HasRoom limits.old.limits.instance pricer.old }
    ensures bound { IsBoundIn (child limits.old.limits choice side) prices.now result }
    ensures decides { DecidesProved (child limits.old.limits choice side) prices.now result }
    ensures limits { limits.new ≡ limits.old }
    ensures room { pricer.new.places ≡ pricer.old.places }
{
    prices_prove_inside();
    // The limits are those of an instance.
    let _ = limits.instance();
    narrow(limits, Branch { choice, side });
    let proved = pricer.proved(limits, prices);
    limits.undo();
    proved.bound
}

/// The bounds that the prices give in the children.
fn child_bounds(
    limits: &mut Limits<'_>,
    pricer: &mut Pricer,
    choice: Choice,
    prices: &Prices,
) -> (i128, i128)
    requires can { CanSplit limits.old.limits choice }
    requires spare { 1 ≤ limits.old.spare }
    requires prices { ArePricesOf limits.old.limits prices.now }
    requires proved { PricesProve limits.old.limits prices.now 0 }
    requires room { HasRoom limits.old.limits.instance pricer.old }
    ensures low { IsBoundIn (child limits.old.limits choice Side.First) prices.now result.0 }
    ensures high { IsBoundIn (child limits.old.limits choice Side.Second) prices.now result.1 }
    ensures first { DecidesProved (child limits.old.limits choice Side.First) prices.now result.0 }
    ensures second { DecidesProved (child limits.old.limits choice Side.Second)
        prices.now result.1 }
    ensures limits { limits.new ≡ limits.old }
    ensures room { pricer.new.places ≡ pricer.old.places }
{
    let first = side_bound(limits, pricer, choice, Side::First, prices);
    let second = side_bound(limits, pricer, choice, Side::Second, prices);
    (first, second)
}

/// The prices that a split hands on: those that its step found, or the node's own, which give this bound, where these prove
/// more in the node. The limits stay as they were. AllocError where there is no memory.
pub(crate) fn hand_on(
    alloc: Global,
    limits: &mut Limits<'_>,
    pricer: &mut Pricer,
    choice: Choice,
    own: &KeptPrices,
    bound: i128,
    found: &Prices,
) -> Result<Handed, AllocError>
    requires can { CanSplit limits.old.limits choice }
    requires spare { 1 ≤ limits.old.spare }
    requires own { ArePricesOf limits.old.limits own.now }
    requires bound { DecidesProved limits.old.limits own.now bound }
    requires found { ArePricesOf limits.old.limits found.now }
    requires required { IsOnRequired limits.old.limits found.now }
    requires room { HasRoom limits.old.limits.instance pricer.old }
    ensures handed { IfOk result (IsHanded limits.old.limits choice own.now found.now) }
    ensures limits { limits.new ≡ limits.old }
    ensures room { pricer.new.places ≡ pricer.old.places }
{
    less_is_proved();
    if pricer.proved(limits, found).count >= most_proved(limits, bound) {
        let kept = KeptPrices::of(alloc, limits, found)?;
        let bounds = child_bounds(limits, pricer, choice, found);
        return Ok(Handed {
            prices: Some(kept),
            bounds,
        });
    }
    let prices = own.prices(alloc, limits)?;
    let bounds = child_bounds(limits, pricer, choice, &prices);
    Ok(Handed {
        prices: None,
        bounds,
    })
}
