// Laws of lines that were taken: what they lead to, and what they end.
ghost use Rattle.std.specs.Prelude.{◌≡◌};
ghost use Rattle.crew_terms.specs.Words.{Words};
ghost use Rattle.dossier_terms.specs.Dossier.{Dossier};
ghost use Rattle.dossier_terms.specs.Reading.{Reading, Answer, More, Whole};
ghost use Rattle.dossier_terms.specs.Table.{Says};
ghost use Rattle.cert_checker.specs.Checked.{IsReached, IsTrueYes};

use dossier_laws::{
    good_bounds, loose_splits_stay_open, read_is_good, reading_ends, reading_goes_on,
    says_one_thing,
};

/// There is one answer to a line where lines have led to what is due.
pub fn one_answer()
    ensures { (due : Reading) (words : Words) (a b : Answer) → IsReached due → Says due words a →
        Says due words b → b ≡ a }
{
    says_one_thing();
}

/// A line that breaks no rule leads on.
pub fn reached_goes_on()
    ensures { (due next : Reading) (words : Words) → IsReached due → Says due words (More next) →
        IsReached next }
{
    reading_goes_on();
}

/// A dossier that a line ends is what it says.
pub fn whole_is_true()
    ensures { (due : Reading) (words : Words) (d : Dossier) → IsReached due →
        Says due words (Whole d) → IsTrueYes d }
{
    reading_ends();
    read_is_good();
    good_bounds();
    loose_splits_stay_open();
}
