// The lines of a dossier: reading one of an expected kind.
#![tactic(auto)]

ghost use Rattle.cert_format.specs.Lines.{ReadsLine};

pub mod body;
pub mod causes;
pub mod head;
pub mod kinds;
mod laws;
pub mod leaves;
pub mod nodes;
pub mod typed;

pub use body::{read_end, read_job, read_plan, read_pool, read_route, read_tree};
pub use causes::{read_share, read_spare, read_why};
pub use crew_num::{Op, Overflow};
use field_table::LineWords;
pub use head::{
    read_form, read_frozen, read_keep, read_place, read_size, read_task, read_team, read_travel,
};
pub use kinds::{Expect, LineKind};
pub use laws::{fault_is_refused, line_has_one_answer};
pub use leaves::{read_extra, read_phi, read_price, read_steps, read_worth};
use line_in::LineFault;
pub use nodes::read_node;
pub use typed::{
    JobLine, NodeLine, PlanLine, PoolLine, RouteLine, ShareLine, TaskLine, TeamLine, WhyLine,
};

/// Reads a line of the expected kind from its words; it takes no memory. The fault is the first that the
/// line has: of its shape, then of its name, then of its numbers.
// A caller expects one kind; inlined, the others fall away.
#[inline(always)]
pub fn read_line<'a>(expect: Expect, words: LineWords<'a>) -> Result<LineKind<'a>, LineFault>
    ensures { ReadsLine expect words.entry result }
{
    match expect {
        Expect::Form => Ok(LineKind::Form {
            form: read_form(words)?,
        }),
        Expect::Size => Ok(LineKind::Size {
            size: read_size(words)?,
        }),
        Expect::Place => Ok(LineKind::Place {
            name: read_place(words)?,
        }),
        Expect::Travel { places } => Ok(LineKind::Travel {
            times: read_travel(words, places)?,
        }),
        Expect::Team { places } => Ok(read_team(words, places)?.into()),
        Expect::Task { places } => Ok(read_task(words, places)?.into()),
        Expect::Frozen { most } => Ok(LineKind::Frozen {
            count: read_frozen(words, most)?,
        }),
        Expect::Keep { teams, tasks } => Ok(read_keep(words, teams, tasks)?.kept()),
        Expect::Pool => Ok(read_pool(words)?.into()),
        Expect::Route { teams, tasks } => Ok(read_route(words, teams, tasks)?.into()),
        Expect::Plan { tasks } => Ok(read_plan(words, tasks)?.into()),
        Expect::Job { teams, tasks } => Ok(read_job(words, teams, tasks)?.planned()),
        Expect::Tree => Ok(LineKind::Tree {
            counts: read_tree(words)?,
        }),
        Expect::Node { teams, tasks } => Ok(read_node(words, teams, tasks)?.into()),
        Expect::Why { tasks } => Ok(read_why(words, tasks)?.into()),
        Expect::Share { columns, whole } => Ok(read_share(words, columns, whole)?.into()),
        Expect::Spare { tasks, whole } => Ok(LineKind::Spare {
            shares: read_spare(words, tasks, whole)?,
        }),
        Expect::Price { tasks } => Ok(LineKind::Price {
            prices: read_price(words, tasks)?,
        }),
        Expect::Extra { task, count } => Ok(LineKind::Extra {
            task,
            prices: read_extra(words, task, count)?,
        }),
        Expect::Worth => Ok(LineKind::Worth {
            worth: read_worth(words)?,
        }),
        Expect::Phi { task, count } => Ok(LineKind::Phi {
            task,
            values: read_phi(words, task, count)?,
        }),
        Expect::Steps { task } => Ok(LineKind::Steps {
            task,
            pairs: read_steps(words, task)?,
        }),
        Expect::End => {
            read_end(words)?;
            Ok(LineKind::End)
        }
    }
}
