// Laws of rounds: what is written of an outcome of the search is a dossier of the round.
ghost use Rattle.std.specs.Prelude.{◌≡◌, ◌≤◌, List, All, length};
ghost use Rattle.cert_write.specs.Dossiers.{IsDossierOf};
ghost use Rattle.cert_write.specs.Given.{AreWritable, Given};
ghost use Rattle.column_arena.specs.Columns.{AreColumns};
ghost use Rattle.crew_terms.specs.Instance.{Instance};
ghost use Rattle.crew_terms.specs.Limits.{Route, root_limits};
ghost use Rattle.crew_terms.specs.Verdict.{IsPlanOf};
ghost use Rattle.dossier_terms.specs.Dossier.{Dossier, IsPooled};
ghost use Rattle.replan.specs.Counts.{counts_of};
ghost use Rattle.replan.specs.Given.{AreNumbersOf, IsOfOutcome, kept_in};
ghost use Rattle.replan.specs.Rounds.{IsRoundDossier};
ghost use Rattle.replan.specs.declared.counts.Counts.{Counts};
ghost use Rattle.route_terms.specs.Kept.{AreKeptIn};
ghost use Rattle.route_terms.specs.Named.{IsOfInstance, NamedRoute};
ghost use Rattle.search_core.specs.declared.causes.Outcome.{Outcome};

use branch_tree::one_tree;
use dossier_laws::good_bounds;
use search_core::outcomes_are_searched;
use search_laws::searches_are_caused;
use written_laws::{
    leaves_keep_their_prices, solved_causes_may_be_told, solved_pools_are_of_the_instance,
    solved_trees_are_proved, told_causes_tell, written_dossiers_are_good,
};

/// A dossier of what the search comes to is one of the round that is handed the kept columns by names.
pub(crate) fn outcomes_are_rounds()
    ensures writable { (g : Given) (o : Outcome) → IsOfOutcome g o → AreWritable g }
    ensures dossier { (handed : List NamedRoute) (g : Given) (o : Outcome) (d : Dossier)
        → IsOfOutcome g o →
        AreKeptIn (root_limits g.instance) handed (kept_in g) → IsDossierOf g d →
        IsRoundDossier handed (record { instance = g.instance; nodes = g.nodes }) d }
    ensures few { (g : Given) (o : Outcome) → IsOfOutcome g o → length g.causes ≤ g.nodes }
    ensures plan { (g : Given) (o : Outcome) → IsOfOutcome g o → IsPlanOf g.instance g.plan }
    ensures counts { (g : Given) (o : Outcome) (d : Dossier) (counts : Counts) → IsOfOutcome g o
        → IsDossierOf g d →
        AreNumbersOf g o counts → counts ≡ counts_of d }
{
    good_bounds();
    leaves_keep_their_prices();
    one_tree();
    outcomes_are_searched();
    searches_are_caused();
    solved_causes_may_be_told();
    solved_pools_are_of_the_instance();
    solved_trees_are_proved();
    told_causes_tell();
    written_dossiers_are_good();
}

/// Columns that are kept by names may stand in the instance's pool, and those of its pool have its teams and tasks.
pub(crate) fn pools_are_of_instances()
    ensures kept { (i : Instance) (handed : List NamedRoute) (kept : List Route)
        → AreKeptIn (root_limits i) handed kept →
        AreColumns kept → All (IsPooled i) kept }
    ensures known { (i : Instance) (pool : List Route) → All (IsPooled i) pool
        → All (IsOfInstance i) pool }
{}
