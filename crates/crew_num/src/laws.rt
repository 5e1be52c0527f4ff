// Laws of products of whole numbers.
ghost use Rattle.std.specs.Prelude.{ℤ, pos, ◌*ℤ◌, ◌<ℤ◌, ◌≤ℤ◌};

/// A product with a positive number keeps the order, and shows it.
pub fn products_keep_order()
    ensures kept { (c a b : ℤ) → pos 0 <ℤ c → a ≤ℤ b → (c *ℤ a) ≤ℤ (c *ℤ b) }
    ensures shown { (c a b : ℤ) → pos 0 <ℤ c → (c *ℤ a) ≤ℤ (c *ℤ b) → a ≤ℤ b }
{}
