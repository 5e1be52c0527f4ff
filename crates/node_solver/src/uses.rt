// How the shares of columns use teams.
ghost use Rattle.std.specs.Prelude.{◌≡◌, ◌<◌, length, All, IfOk, OnOk};
ghost use Rattle.branch_choice.specs.Uses.{IsPermittedUse};
ghost use Rattle.column_arena.specs.Legal.{IsLegalColumn};
ghost use Rattle.crew_terms.specs.Limits.{IsRoute, Limits as NodeLimits, teams_in};

use branch_choice::Use;
use column_arena::Columns;
use crew_terms::Visit;
use frac_master::Share;
use std::alloc::{AllocError, Global};

// Adds a use for each visit of the team's route.
fn add_visits(uses: &mut Vec<Use>, team: u32, visits: &[Visit], num: i128) -> Result<(), AllocError>
    ensures { (n : NodeLimits) → team < teams_in n → IsRoute n team visits.now
        → All (IsPermittedUse n) uses.old.items →
        OnOk result (All (IsPermittedUse n) uses.new.items) }
{
    for visit in visits {
        uses.push(Use {
            team,
            task: visit.task,
            start: visit.start,
            num,
        })?;
    }
    Ok(())
}

// Adds a use for each visit of the column.
fn add_column<C: Columns>(uses: &mut Vec<Use>, columns: &C, share: &Share) -> Result<(), AllocError>
    requires { share.now.column < length (C.columns columns.now) }
    ensures { (n : NodeLimits) → IsLegalColumn n (C.columns columns.now) share.now.column
        → All (IsPermittedUse n) uses.old.items →
        OnOk result (All (IsPermittedUse n) uses.new.items) }
{
    let id = share.column;
    add_visits(uses, columns.team(id), columns.visits(id), share.num)
}

/// A use for each visit of each column, of as many parts as its share has. AllocError where there is no memory.
pub(crate) fn uses_of<C: Columns>(
    alloc: Global,
    columns: &C,
    shares: &[Share],
) -> Result<Vec<Use>, AllocError>
    requires { All (λ s. s.column < length (C.columns columns.now)) shares.now }
    ensures { (n : NodeLimits) → All (λ s. IsLegalColumn n (C.columns columns.now) s.column)
        shares.now →
        IfOk result (λ uses. All (IsPermittedUse n) uses.items) }
{
    let mut uses = Vec::new(alloc);
    for share in shares {
        add_column(&mut uses, columns, share)?;
    }
    Ok(uses)
}
