// The causes of an outcome, as a dossier tells them.
ghost use Rattle.std.specs.Prelude.{◌≡◌, IfOk, map};
ghost use Rattle.cert_write.specs.Causes.{cause_of};
ghost use Rattle.crew_num.specs.Exact.{FitsI128};
ghost use Rattle.dossier_terms.specs.Causes.{Overflowed};
ghost use Rattle.written_laws.specs.Told.{AreTold, IsInRange, told_of};

use cert_write::Cause;
use crew_num::Overflow;
use search_core::{Cause as SplitCause, Why};
use std::alloc::{AllocError, Global};

/// An overflow, as a dossier tells it.
fn told_overflow<'a>(now: u32, fault: Overflow) -> Cause<'a>
    ensures cause { cause_of result ≡ Overflowed now fault }
    ensures first { FitsI128 fault.a }
    ensures second { FitsI128 fault.b }
{
    // It is known from here on that the operands have 128 bits.
    let _first = fault.a;
    let _second = fault.b;
    Cause::Overflow { now, fault }
}

/// A cause, as a dossier tells it. It borrows the shares.
fn told_cause(cause: &SplitCause) -> Cause<'_>
    ensures cause { cause_of result ≡ told_of cause.entry.now }
    ensures range { IsInRange cause.entry.now.why }
{
    let now = cause.now;
    match &cause.why {
        Why::Loose {
            den,
            shares,
            left_open,
        } => Cause::Loose {
            now,
            den: *den,
            shares: shares.as_slice(),
            left_open: left_open.as_slice(),
        },
        Why::Overflow(fault) => told_overflow(now, *fault),
        Why::Spent => Cause::Spent { now },
    }
}

/// The causes of an outcome, in their order, as a dossier tells them. They borrow the shares. AllocError where there is no
/// memory.
pub fn told_causes<'a>(
    alloc: Global,
    causes: &'a [SplitCause],
) -> Result<Vec<Cause<'a>>, AllocError>
    ensures { IfOk result (λ told. AreTold causes.now (map cause_of told.items)) }
{
    let mut told = Vec::with_capacity(alloc, causes.len())?;
    for i in 0..causes.len() {
        told.push(told_cause(&causes[i]))?;
    }
    Ok(told)
}
