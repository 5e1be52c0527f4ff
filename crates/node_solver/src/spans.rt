// The spans of shares of columns.
ghost use Rattle.std.specs.Prelude.{◌≡◌, All, IfOk, OnOk};
ghost use Rattle.column_arena.specs.Legal.{IsLegalColumn};
ghost use Rattle.split_uses.specs.Permitted.{IsPermittedSpan};

use column_arena::Columns;
use frac_master::Share;
use node_limits::Limits;
use split_uses::{Span, add_spans};
use std::alloc::{AllocError, Global};

// Adds a span for each visit of the column.
fn add_column<C: Columns>(
    alloc: Global,
    spans: &mut Vec<Span>,
    limits: &Limits<'_>,
    columns: &C,
    share: &Share,
) -> Result<(), AllocError>
    requires legal { IsLegalColumn limits.now.limits (C.columns columns.now) share.now.column }
    requires spans { All (IsPermittedSpan limits.now.limits) spans.old.items }
    ensures { OnOk result (All (IsPermittedSpan limits.now.limits) spans.new.items) }
{
    let id = share.column;
    add_spans(
        alloc,
        spans,
        limits,
        columns.team(id),
        columns.visits(id),
        share.num,
    )
}

/// A span for each visit of each column, of as many parts as its share has. AllocError where there is no memory.
pub(crate) fn spans_of<C: Columns>(
    alloc: Global,
    limits: &Limits<'_>,
    columns: &C,
    shares: &[Share],
) -> Result<Vec<Span>, AllocError>
    requires { All (λ s. IsLegalColumn limits.now.limits (C.columns columns.now) s.column)
        shares.now }
    ensures { IfOk result (λ spans. All (IsPermittedSpan limits.now.limits) spans.items) }
{
    let mut spans = Vec::new(alloc);
    for share in shares {
        add_column(alloc, &mut spans, limits, columns, share)?;
    }
    Ok(spans)
}
