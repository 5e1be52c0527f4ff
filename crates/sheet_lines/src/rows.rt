// The potentials of one team, as the lines of a sheet give them.
ghost use Rattle.std.specs.Prelude.{◌≡◌, ◌<◌, ◌++◌, ◌∷◌, ℤ, List, [], length, IfOk, OnErr, OnOk};
ghost use Rattle.crew_instance.specs.Draft.{rows_of};
ghost use Rattle.crew_terms.specs.Limits.{tasks_in, teams_in};
ghost use Rattle.crew_terms.specs.Minutes.{minute_count};
ghost use Rattle.leaf_check.specs.Keys.{has_minutes};
ghost use Rattle.sheet_lines.specs.Rows.{HasRowsBefore, IsRowNext};

use leaf_check::keys::is_open;
use node_limits::Limits;
use std::alloc::{AllocError, Global};
use std::marker::Model;

/// The potentials of one team so far: for each of the first tasks a number for each minute at which the team may begin it.
///
/// In contracts: the list of the numbers of each task.
#[derive(Drop)]
pub struct TeamRows {
    rows: Vec<Vec<i64>>,
}

impl Model for TeamRows {
    ghost use Rattle.std.specs.Prelude.{List, ℤ};

    ghost Value = { List (List ℤ) };

    ghost use Rattle.crew_instance.specs.Draft.{rows_of};

    ghost view = { λ a. rows_of a.rows.items };
}

impl TeamRows {
    /// Those of no task.
    pub fn new(alloc: Global) -> TeamRows
        ensures { result ≡ [] }
    {
        TeamRows {
            rows: Vec::new(alloc),
        }
    }

    /// Adds those of the next task. After want of memory the rows are as before.
    pub fn push(&mut self, row: Vec<i64>) -> Result<(), AllocError>
        ensures ok { OnOk result (self.new ≡ self.old ++ row.items ∷ []) }
        ensures err { OnErr result (self.new ≡ self.old) }
    {
        self.rows.push(row)?;
        Ok(())
    }

    /// Those of each task so far.
    pub fn rows(&self) -> &[Vec<i64>]
        ensures { rows_of result.now ≡ self.now }
    {
        &self.rows
    }

    /// Adds an empty row for each task from here on that team `k` may not begin, up to the first that it may begin: that
    /// one, or None where there is none.
    pub fn pass_closed(
        &mut self,
        alloc: Global,
        limits: &Limits<'_>,
        k: u32,
    ) -> Result<Option<u32>, AllocError>
        requires { k < teams_in limits.now.limits }
        ensures { (phi : List (List ℤ)) → HasRowsBefore limits.now.limits k self.old phi
            → IfOk result (IsRowNext limits.now.limits k self.old self.new phi) }
    {
        for j in self.rows.len()..limits.instance().tasks() {
            if is_open(limits, k, j as u32) {
                return Ok(Some(j as u32));
            }
            self.push(Vec::new(alloc))?;
        }
        Ok(None)
    }
}
