// Prices for a search, of whole multiples of 1/D of a task, from those of a master.

ghost use Rattle.std.specs.Prelude.{◌≡◌, ◌<ℤ◌, pos};
ghost use Rattle.search_terms.specs.Earned.{rounded};

use crew_num::floor_scaled;
use crew_terms::{D, MOST_PRICE};

/// A price or an extra, as numerator and positive denominator in tasks, in 1/D of a task: rounded down, and cut off at the
/// greatest price.
pub fn round_price(num: i128, den: i128) -> i64
    requires { pos 0 <ℤ den }
    ensures { result ≡ rounded num den }
{
    let most = MOST_PRICE as i128;
    match floor_scaled(num, den, D as i128) {
        Ok(floor) => floor.min(most).max(-most) as i64,
        Err(_) => {
            if num < 0 {
                -(MOST_PRICE as i64)
            } else {
                MOST_PRICE as i64
            }
        }
    }
}
