// Laws of dossiers that are written: each set of parts has one dossier.
ghost use Rattle.std.specs.Prelude.{◌≡◌};
ghost use Rattle.crew_terms.specs.Rules.{IsInstance};
ghost use Rattle.dossier_terms.specs.Dossier.{Dossier};
ghost use Rattle.cert_write.specs.Given.{AreWritable, Given};
ghost use Rattle.cert_write.specs.Dossiers.{IsDossierOf};

use branch_tree::one_tree;
use crew_laws::minutes_are_permitted;
use label_pricing::{one_worth, teams_have_bests};

/// Parts of which a dossier can be written have a dossier, and one alone.
pub fn parts_have_one_dossier()
    ensures some { (g : Given) → IsInstance g.instance → AreWritable g
        → (d : Dossier) × IsDossierOf g d }
    ensures one { (g : Given) (d e : Dossier) → IsDossierOf g d → IsDossierOf g e → d ≡ e }
{
    minutes_are_permitted();
    one_tree();
    one_worth();
    teams_have_bests();
}
