// Why a line of a bundle is refused.
use dossier_terms::Reason;

/// Why a line of a bundle is refused.
#[derive(Clone, Copy, Debug, PartialEq, Eq)]
pub enum BundleReason {
    /// The line is none of the expected kind, breaks a rule of dossiers, or does not come whole.
    Line(Reason),
    /// The dossier that the line ends is of no part of the day, or of one with a task of an earlier part.
    Part,
}
