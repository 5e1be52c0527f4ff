// Teams that price alike: one of each class is priced.
ghost use Rattle.std.specs.Prelude.{◌≡◌, ◌<◌, ◌≤◌, length, IfOk};
ghost use Rattle.crew_terms.specs.Limits.{teams_in};
ghost use Rattle.label_pricing.specs.Alike.{AreAlike};
ghost use Rattle.price_ascent.specs.Classes.{AreFirsts, first_of};

use label_pricing::alike;
use node_limits::Limits;
use std::alloc::{AllocError, Global};

// The first team before team `k` that prices alike; team `k` if there is none. It is asked of the first teams alone.
fn first_like(limits: &Limits<'_>, firsts: &[u32], k: u32) -> u32
    requires team { k < teams_in limits.now.limits }
    requires count { length firsts.now ≡ k }
    ensures early { result ≤ k }
    ensures own { result < k → first_of firsts.now result ≡ result }
    ensures alike { result < k → AreAlike limits.now.limits result k }
{
    for h in 0..k {
        if firsts[h as usize] == h && alike(limits, h, k) {
            return h;
        }
    }
    k
}

/// For each team the first that prices alike, which may be itself; AllocError where there is no memory.
pub fn find_firsts(alloc: Global, limits: &Limits<'_>) -> Result<Vec<u32>, AllocError>
    ensures { IfOk result (λ firsts. AreFirsts limits.now.limits firsts.items) }
{
    let mut firsts: Vec<u32> = Vec::new(alloc);
    for k in 0..limits.instance().teams() as u32 {
        let first = first_like(limits, &firsts, k);
        firsts.push(first)?;
    }
    Ok(firsts)
}
