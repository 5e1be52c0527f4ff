// How far the head of a dossier has been read: the line that is due, and what the lines before it said.

use crew_instance::{Builder, Instance};
use dossier_terms::{DossierForm, Size};

/// The form of the dossier, the counts of the line `size`, and the parts of the instance that are read so far.
#[derive(Drop)]
pub struct Head {
    pub form: DossierForm,
    pub size: Size,
    pub builder: Builder,
}

/// A whole instance, with the form and the node budget of its dossier.
#[derive(Drop)]
pub struct Base {
    pub form: DossierForm,
    pub instance: Instance,
    pub nodes: u32,
}

/// The line of the head that is due, with what was read; `more` lines of its kind come after it.
#[derive(Drop)]
pub enum HeadDue {
    Form,
    Size {
        form: DossierForm,
    },
    Place {
        head: Box<Head>,
        more: u64,
    },
    Travel {
        head: Box<Head>,
        more: u64,
    },
    Team {
        head: Box<Head>,
        more: u64,
    },
    Task {
        head: Box<Head>,
        more: u64,
    },
    /// The line `frozen`.
    Frozen {
        head: Box<Head>,
    },
    /// A line `keep`; `from` is the least task that it may be of.
    Keep {
        head: Box<Head>,
        more: u32,
        from: u32,
    },
    /// No line of the head is due: the instance is whole.
    Whole {
        base: Box<Base>,
    },
}
