// The dossier of a day, as a bundle is made of it.
use crew_instance::Instance;

/// The dossier of a day: its instance and its text, how many tasks its plan leaves unassigned, and its bound.
#[derive(Drop)]
pub struct Day<'a> {
    pub instance: &'a Instance,
    pub text: &'a [u8],
    pub unassigned: u32,
    pub bound: u32,
}
