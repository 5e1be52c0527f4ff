// The routes of a dossier's pool, and those of them that are kept from the round before.
ghost use Rattle.std.specs.Prelude.{◌≡◌, ◌↔◌, IfOk, IsTrue};
ghost use Rattle.cert_checker.specs.Checked.{IsEnded, IsWholeAt};
ghost use Rattle.crew_terms.specs.Limits.{root_limits};
ghost use Rattle.dossier_terms.specs.Dossier.{Dossier, IsGood};
ghost use Rattle.route_terms.specs.Kept.{AreKeptIn};
ghost use Rattle.day_audit.specs.Belongs.{kept_of};
ghost use Rattle.day_audit.specs.Kept.{handed_in};

use cert_checker::Checker;
use column_arena::{Carry, Columns, VecColumns};
use crew_instance::Instance;
use crew_terms::Visit;
use node_limits::Limits;
use std::alloc::{AllocError, Global};

/// The routes of the pool of the dossier that is whole.
pub(crate) fn pool_of(alloc: Global, checker: &Checker) -> Result<VecColumns, AllocError>
    requires { IsEnded checker.now.at }
    ensures { (d : Dossier) → IsWholeAt checker.now.at d → IsGood d →
        IfOk result (λ columns. columns ≡ d.pool) }
{
    // That the dossier is good is known from here on.
    let _ = checker.is_between();
    let mut columns = VecColumns::new(alloc);
    for id in 0..checker.pool_len() {
        let (team, visits) = checker.route(id);
        columns.add(team, visits)?;
    }
    Ok(columns)
}

/// Those of the carried routes that are routes at the root of the instance, in order.
pub(crate) fn kept_routes(
    alloc: Global,
    instance: &Instance,
    carry: &Option<Carry>,
) -> Result<VecColumns, AllocError>
    ensures { IfOk result (λ columns.
        AreKeptIn (root_limits instance.now) (handed_in carry.now) columns) }
{
    let mut columns = VecColumns::new(alloc);
    let Some(carried) = carry else {
        return Ok(columns);
    };
    let limits = Limits::root(alloc, instance)?;
    carried.place(&limits, &mut columns)?;
    Ok(columns)
}

/// Whether the visits are the same, in order.
fn are_same_visits(a: &[Visit], b: &[Visit]) -> bool
    ensures { IsTrue result ↔ (a.now ≡ b.now) }
{
    a == b
}

/// Whether the dossier that is whole keeps these routes, in order.
pub(crate) fn keeps(checker: &Checker, columns: &VecColumns) -> bool
    requires { IsEnded checker.now.at }
    ensures { (d : Dossier) → IsWholeAt checker.now.at d → IsGood d →
        (IsTrue result ↔ (kept_of d ≡ columns.now)) }
{
    let _ = checker.is_between();
    if columns.len() != checker.kept() {
        return false;
    }
    for id in 0..columns.len() {
        let (team, visits) = checker.route(id);
        if team != columns.team(id) {
            return false;
        }
        if !are_same_visits(visits, columns.visits(id)) {
            return false;
        }
    }
    true
}
