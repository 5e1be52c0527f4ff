// The chart of a plan: as numbers (which hours it shows, where its rows are, how a job is set off, and how long a team is on its
// way to it), its rows and jobs as text, and the page on which charts stand.
#![tactic(auto)]

pub mod bars;
pub mod charts;
pub mod counts;
pub mod drawings;
pub mod headings;
pub mod hours;
pub mod jobs;
pub mod links;
pub mod looks;
pub mod opens;
pub mod pages;
pub mod rows;
pub mod shifts;
pub mod titles;
pub mod ways;

pub use charts::put_chart;
pub use pages::{put_page_end, put_page_head};
