// What is written for a good dossier.

/// What is written for each good dossier.
#[derive(Clone, Copy, Debug, PartialEq, Eq)]
pub enum Output {
    /// A line `yes` with its counts.
    YesLines,
    /// The roster of its plan.
    Rosters,
    /// What is in the way of each task that its plan leaves open.
    Why,
}
