// With which prices a step begins.
ghost use Rattle.std.specs.Prelude.{◌≡◌, IfOk, IfSome};
ghost use Rattle.crew_terms.specs.Leaf.{IsOnRequired};
ghost use Rattle.label_pricing.specs.Pricing.{HasRoom};
ghost use Rattle.potentials.specs.Prices.{ArePricesOf};
ghost use Rattle.search_terms.specs.Proven.{ProveAsMuch};
ghost use Rattle.search_tree.specs.States.{DecidesProved};

use crate::scripted::Place;
use kept_prices::KeptPrices;
use label_pricing::{Pricer, most_proved};
use node_limits::Limits;
use potentials::Prices;
use search_laws::less_is_proved;
use std::alloc::{AllocError, Global};

/// The prices with which the step at a node begins: the script's, where there are some that prove no less than the node's own,
/// which give this bound, or else these. AllocError where there is no memory.
pub(crate) fn start_of(
    alloc: Global,
    limits: &Limits<'_>,
    pricer: &mut Pricer,
    own: &KeptPrices,
    bound: i128,
    place: Place<'_>,
) -> Result<Prices, AllocError>
    requires own { ArePricesOf limits.now.limits own.now }
    requires required { IsOnRequired limits.now.limits own.now }
    requires bound { DecidesProved limits.now.limits own.now bound }
    requires room { HasRoom limits.now.limits.instance pricer.old }
    ensures prices { IfOk result (ArePricesOf limits.now.limits) }
    ensures required { IfOk result (IsOnRequired limits.now.limits) }
    ensures as_much { IfOk result (λ p. ProveAsMuch limits.now.limits p own.now) }
    ensures room { pricer.new.places ≡ pricer.old.places }
{
    less_is_proved();
    let Some(prices) = place.prices(alloc, limits)? else {
        return own.prices(alloc, limits);
    };
    if pricer.proved(limits, &prices).count >= most_proved(limits, bound) {
        return Ok(prices);
    }
    own.prices(alloc, limits)
}
