// Names, teams, tasks, visits, plans, small instances and dossiers. For tests alone: no crate of the program stands on it.
#![tactic(auto)]

mod asked;
mod builders;
pub mod dossiers;
mod faults;
mod instances;
mod parts;
mod plans;
mod shown;
mod texts;

pub use asked::{frozen_at, is_qualified, minutes_between, place_at, task_at, team_at};
pub use builders::{builder_of, builder_of_places, far_builder, gate_builder, gate_instance};
pub use faults::FixtureFault;
pub use instances::{
    crowded_hours, far_gates, hardly_overlapping, joint_task, lacking_skill, no_tasks, one_task,
    there_and_back, two_at_once,
};
pub use parts::{gate_task, name, numbered, task, team, visit};
pub use plans::{Job, is_plan_of, plan_of};
pub use shown::Shown;
pub use texts::{joined, text_of, with_line};
