// What the routes of an ascent's last rounds make on average.
ghost use Rattle.std.specs.Prelude.{◌≡◌, All, IfOk};
ghost use Rattle.price_ascent.specs.Found.{IsFound};
ghost use Rattle.split_uses.specs.Permitted.{IsPermittedSpan};

use crate::spans::{Span, add_spans};
use node_limits::Limits;
use price_ascent::{Ascended, ROUNDS_KEPT};
use std::alloc::{AllocError, Global};

/// The spans of an ascent's last rounds, and how many parts of them make a whole.
#[derive(Drop)]
pub struct Averages {
    pub spans: Vec<Span>,
    pub whole: i128,
}

/// The spans of the routes of an ascent's last rounds, each of which counts the same. AllocError where there is no memory.
pub fn average_spans(
    alloc: Global,
    limits: &Limits<'_>,
    found: &Ascended,
) -> Result<Averages, AllocError>
    requires { All (IsFound limits.now.limits) found.now.routes.items }
    ensures { IfOk result (λ a. All (IsPermittedSpan limits.now.limits) a.spans.items) }
{
    let mut spans = Vec::new(alloc);
    for n in 0..found.routes.len() {
        let route = &found.routes[n];
        add_spans(alloc, &mut spans, limits, route.team, &route.visits, 1)?;
    }
    Ok(Averages {
        spans,
        whole: i128::from(found.rounds.min(ROUNDS_KEPT)) + 1,
    })
}
