// The numbers of a round's dossier.

/// The numbers of a dossier: how many tasks its plan leaves unassigned, and its bound; how many splits its tree has, how many
/// leaves that are closed, and how many that are bare or open; and of how many splits no loose shares are shown.
#[derive(Clone, Copy, Debug, PartialEq, Eq)]
pub struct Counts {
    pub unassigned: u32,
    pub bound: u32,
    pub splits: u32,
    pub closed: u32,
    pub left_open: u32,
    pub unshown: u32,
}
