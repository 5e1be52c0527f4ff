// A list of visits, as it is handed out.
ghost use Rattle.std.specs.Prelude.{◌≡◌};

use crew_terms::Visit;
use std::marker::Model;

/// A list of visits. In contracts: that list.
#[derive(Drop)]
pub struct Visits {
    list: Vec<Visit>,
}

impl Model for Visits {
    ghost use Rattle.std.specs.Prelude.{List};
    ghost use Rattle.crew_terms.specs.declared.Visit.{Visit as TeamVisit};

    ghost Value = { List TeamVisit };

    ghost view = { λ a. a.list.items };
}

impl Visits {
    /// The list with these visits. It takes no memory.
    pub fn of(list: Vec<Visit>) -> Visits
        ensures { result ≡ list.items }
    {
        Visits { list }
    }

    /// The visits, one after the other.
    pub fn as_slice(&self) -> &[Visit]
        ensures { result.now ≡ self.now }
    {
        &self.list
    }
}
