// Draws of numbers, by which equal searches go the same way.
ghost use Rattle.std.specs.Prelude.{◌≤◌, ◌<◌};

use rand_core::utils::NextWord;
use rand_pcg::Lcg64Xsh32;

// The stream of every search.
const STREAM: u64 = 1;

/// A generator of numbers, the same for each seed.
#[derive(Drop)]
pub(crate) struct Draws {
    generator: Lcg64Xsh32,
}

impl Draws {
    /// The generator of a seed.
    pub(crate) fn new(seed: u64) -> Draws {
        Draws {
            generator: Lcg64Xsh32::new(seed, STREAM),
        }
    }

    /// A number below `k`, or 0 where there is none.
    pub(crate) fn below(&mut self, k: usize) -> usize
        ensures below { 0 < k → result < k }
        ensures none { result ≤ k }
    {
        self.generator.next_word() as usize % k.max(1)
    }

    /// Puts the tasks into a drawn order.
    pub(crate) fn shuffle(&mut self, tasks: &mut [u32]) {
        for at in 1..tasks.len() {
            let to = self.below(at + 1);
            tasks.swap(at, to);
        }
    }
}
