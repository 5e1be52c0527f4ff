// Bundles: the dossier of a day with dossiers of its parts; when they are good, their one spelling, and their laws. Each law is
// the contract of a function with nothing to do.
#![tactic(auto)]

ghost use Rattle.std.specs.Prelude.{◌≡◌, ◌≢◌, ◌≤◌, ◌++◌, ◌∷◌, [], List, ℕ, All, AllPairs};
ghost use Rattle.crew_terms.specs.Instance.{Instance};
ghost use Rattle.crew_terms.specs.Rules.{IsInstance};
ghost use Rattle.crew_terms.specs.Words.{line_text};
ghost use Rattle.crew_terms.specs.declared.TheConstants.{MOST_TASKS};
ghost use Rattle.dossier_terms.specs.Dossier.{Dossier, IsGood};
ghost use Rattle.dossier_terms.specs.Lines.{text_of};
ghost use Rattle.part_terms.specs.Parts.{Part, Restricts};
ghost use Rattle.part_texts.specs.Accepted.{AreBundles};
ghost use Rattle.part_texts.specs.Bundle.{ArePartsOf, Bundle, HaveTasks, IsGoodBundle, IsTrueBundle, instances_in};
ghost use Rattle.part_texts.specs.Lines.{count_words, first_words, text_of_bundle};
ghost use Rattle.text_laws.specs.Texts.{AreLine};

use dossier_laws::good_bounds;
use part_laws::{open_tasks_of_parts_add, restricted_plans_are_legal};
use text_laws::{one_text, words_of_line};

/// A good bundle is what it says: every legal plan of the day leaves at least its bound unassigned.
pub fn good_bundles_are_true()
    ensures { (b : Bundle) → IsGoodBundle b → IsTrueBundle b }
{
    good_bounds();
    open_tasks_of_parts_add();
    restricted_plans_are_legal();
}

/// Which tasks parts have is told by their instances.
pub fn one_division()
    ensures { (i : Instance) (xs ys : List Part) → IsInstance i
        → All (λ (x : Part). Restricts i x.instance x.tasks) xs
        → All (λ (y : Part). Restricts i y.instance y.tasks) ys
        → instances_in xs ≡ instances_in ys → xs ≡ ys }
{}

/// Dossiers of parts are those of parts with one more exactly where its instance restricts the day to tasks that none of them has.
pub fn one_more_part()
    ensures more { (i : Instance) (ds : List Dossier) (d : Dossier) (taken tasks : List ℕ)
        → HaveTasks i ds taken → Restricts i d.instance tasks
        → AllPairs (λ t u. t ≢ u) (taken ++ tasks)
        → HaveTasks i (ds ++ d ∷ []) (taken ++ tasks) }
    ensures some { (i : Instance) (ds : List Dossier) (d : Dossier) → ArePartsOf i (ds ++ d ∷ [])
        → (tasks : List ℕ) × Restricts i d.instance tasks }
    ensures only { (i : Instance) (ds : List Dossier) (d : Dossier) (taken tasks : List ℕ)
        → IsInstance i → HaveTasks i ds taken → Restricts i d.instance tasks
        → ArePartsOf i (ds ++ d ∷ []) → AllPairs (λ t u. t ≢ u) (taken ++ tasks) }
    ensures front { (i : Instance) (ds others : List Dossier) → ArePartsOf i (ds ++ others)
        → ArePartsOf i ds }
{
    one_division();
}

/// A text that begins with that of a good dossier begins with that of no other one.
pub fn one_dossier_first()
    ensures { (d e : Dossier) (x y : List ℕ) → IsGood d → IsGood e
        → text_of d ++ x ≡ text_of e ++ y → (d ≡ e) × (x ≡ y) }
{
    one_text();
}

/// The lines of a bundle between its dossiers have words without a space and an LF, and are no longer than a line may be.
pub fn lines_between()
    ensures first { AreLine first_words }
    ensures count { (k : ℕ) → k ≤ MOST_TASKS → AreLine (count_words k) }
{}

/// A text that begins with a line `parts` begins with one of no other number.
pub fn one_count_first()
    ensures { (j k : ℕ) (x y : List ℕ) → j ≤ MOST_TASKS → k ≤ MOST_TASKS
        → line_text (count_words j) ++ x ≡ line_text (count_words k) ++ y → (j ≡ k) × (x ≡ y) }
{
    one_dossier_first();
    words_of_line();
}

/// A text that begins with that of a good bundle begins with that of no other one.
pub fn one_bundle_first()
    ensures { (b c : Bundle) (x y : List ℕ) → IsGoodBundle b → IsGoodBundle c
        → text_of_bundle b ++ x ≡ text_of_bundle c ++ y → (b ≡ c) × (x ≡ y) }
{
    one_dossier_first();
    words_of_line();
}

/// Bytes are the texts of one list of good bundles.
pub fn one_list_of_bundles()
    ensures { (bytes : List ℕ) (bs cs : List Bundle) → AreBundles bytes bs → AreBundles bytes cs
        → bs ≡ cs }
{
    one_bundle_first();
}
