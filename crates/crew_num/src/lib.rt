// Exact numbers of 128 bits: sums, products, divisors and ratios, and whole numbers with a part of a unit; and laws of
// products, sums and quotients of whole numbers, of which most stand in specs/, as lemmas for the proofs of other crates,
// since no crate can cite another's proofs/.
#![tactic(auto)]

mod divisors;
mod exact;
mod laws;
mod mixed;
mod quotients;
mod ratios;

pub use divisors::{gcd, gcd_of};
pub use exact::{Op, Overflow, add, cross, mul, sub};
pub use laws::products_keep_order;
pub use mixed::{MOST_FACTOR, MOST_WHOLE, Mixed, mixed_add, mixed_gap, mixed_times};
pub use ratios::{cmp_ratio, floor_scaled};
