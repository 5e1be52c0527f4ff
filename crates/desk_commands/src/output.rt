// What the desk asks for.

/// What is written of good dossiers.
#[derive(Clone, Copy, Debug, PartialEq, Eq)]
pub enum DeskOutput {
    /// What changed from each plan to the next.
    Changes,
    /// A page with a chart of each plan.
    Picture,
}
