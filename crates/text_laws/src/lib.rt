// Laws about the bytes of a dossier's text: lines and their words, and that a text is read in one way.
#![tactic(auto)]

ghost use Rattle.std.specs.Prelude.{◌≡◌, ◌≢◌, ◌≤◌, ◌++◌, ◌⊎◌, List, [], ℕ, map, All};
ghost use Rattle.std.specs.List.{flat_map};
ghost use Rattle.crew_terms.specs.Words.{Words, words_of, line_of, with_feed, IsLine};
ghost use Rattle.crew_terms.specs.Instance.{Instance};
ghost use Rattle.crew_terms.specs.Rules.{IsInstance};
ghost use Rattle.crew_terms.specs.declared.TheConstants.{MOST_NODES};
ghost use Rattle.dossier_terms.specs.Accepted.{IsAccepted};
ghost use Rattle.dossier_terms.specs.Dossier.{Dossier, IsGood};
ghost use Rattle.dossier_terms.specs.Lines.{lines_of, text_of, size_of, size_line, place_line, travel_line, team_line, task_line};
ghost use Rattle.text_laws.specs.Texts.{AreLine, HasMore, IsFront};

use dossier_laws::one_dossier;

/// Words that hold no space are what their line is cut into, and the words of a line make it again.
pub fn words_of_line()
    ensures words { (words : Words) → words ≢ [] → All (All (λ b. b ≢ 32)) words
        → words_of (line_of words) ≡ words }
    ensures line { (line : List ℕ) → line_of (words_of line) ≡ line }
{}

/// A text is cut at its LFs in one way. Where two texts of lines agree, one of them goes on with more lines;
/// where the one's end holds no LF, it is that one.
pub fn lines_in_text()
    ensures same { (xs ys : List (List ℕ)) → All IsLine xs → All IsLine ys
        → flat_map with_feed xs ≡ flat_map with_feed ys → xs ≡ ys }
    ensures either { (xs ys : List (List ℕ)) (a b : List ℕ) → All IsLine xs → All IsLine ys
        → flat_map with_feed xs ++ a ≡ flat_map with_feed ys ++ b
        → HasMore xs ys a b ⊎ HasMore ys xs b a }
    ensures last { (xs ys : List (List ℕ)) (a b : List ℕ) → All IsLine xs → All IsLine ys
        → All (λ c. c ≢ 10) a
        → flat_map with_feed xs ++ a ≡ flat_map with_feed ys ++ b → HasMore xs ys a b }
{}

/// Each line of an instance has words without a space and an LF, and is no longer than a line may be.
pub fn instance_lines()
    ensures size { (i : Instance) (budget : ℕ) → IsInstance i → budget ≤ MOST_NODES
        → AreLine (size_line (size_of i budget)) }
    ensures places { (i : Instance) → IsInstance i
        → All (λ name. AreLine (place_line name)) i.places }
    ensures travel { (i : Instance) → IsInstance i
        → All (λ row. AreLine (travel_line row)) i.travel }
    ensures teams { (i : Instance) → IsInstance i → All (λ t. AreLine (team_line t)) i.teams }
    ensures tasks { (i : Instance) → IsInstance i → All (λ t. AreLine (task_line t)) i.tasks }
{}

/// Each line of a good dossier has words without a space and an LF, and is no longer than a line may be.
pub fn good_lines()
    ensures { (d : Dossier) → IsGood d → All AreLine (lines_of d) }
{}

/// Lines that have been read of the text of good dossiers are its first ones, and the rest is the text of those after them.
pub fn read_front()
    ensures one { (d : Dossier) (lines : List (List ℕ)) (rest : List ℕ) → IsGood d
        → All IsLine lines
        → text_of d ≡ flat_map with_feed lines ++ rest → IsFront (lines_of d) lines rest }
    ensures many { (ds : List Dossier) (lines : List (List ℕ)) (rest : List ℕ) → All IsGood ds
        → All IsLine lines
        → flat_map text_of ds ≡ flat_map with_feed lines ++ rest
        → IsFront (flat_map lines_of ds) lines rest }
{}

/// Lines that are cut into the words of dossiers are their text.
pub fn text_of_lines()
    ensures one { (d : Dossier) (lines : List (List ℕ)) → lines_of d ≡ map words_of lines
        → text_of d ≡ flat_map with_feed lines }
    ensures many { (ds : List Dossier) (lines : List (List ℕ))
        → flat_map lines_of ds ≡ map words_of lines
        → flat_map text_of ds ≡ flat_map with_feed lines }
{}

/// No text of a good dossier begins that of another, and texts one after another are those of one list of dossiers.
pub fn one_text()
    ensures one { (d e : Dossier) (more : List ℕ) → IsGood d → IsGood e
        → text_of e ≡ text_of d ++ more → (more ≡ []) × (d ≡ e) }
    ensures many { (ds es : List Dossier) → All IsGood ds → All IsGood es
        → flat_map text_of ds ≡ flat_map text_of es → ds ≡ es }
{
    one_dossier();
}

/// Bytes are accepted as one list of dossiers.
#[tactic(auto, using(crate::proofs::Once::accepted_once))]
pub fn accepted_one_way()
    ensures { (bytes : List ℕ) (ds es : List Dossier) → IsAccepted bytes ds
        → IsAccepted bytes es → ds ≡ es }
{
    one_text();
}
