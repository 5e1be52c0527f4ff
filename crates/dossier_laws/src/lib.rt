// The laws of dossiers: the table of lines reads what is good and nothing else, says one thing of each line, every good
// dossier's bound holds, and what the causes of its splits mean. Each law is the contract of a function with nothing to do.
#![tactic(auto)]

ghost use Rattle.std.specs.Prelude.{◌≡◌, ◌≤◌, ◌<◌, ◌^◌, ◌++◌, List, [], ◌∷◌, ℕ, ℤ, ◌+◌, pos, length, map, slice_index, slice_index_or};
ghost use Rattle.std.specs.Fmt.{signed_decimal};
ghost use Rattle.std.specs.Int.{bit_at};
ghost use Rattle.std.specs.List.{AllByRecursion};
ghost use Rattle.crew_terms.specs.Words.{Words};
ghost use Rattle.crew_terms.specs.Plan.{Plan, unassigned_count};
ghost use Rattle.crew_terms.specs.Legal.{IsLegal};
ghost use Rattle.crew_terms.specs.Limits.{Limits, teams_in};
ghost use Rattle.crew_terms.specs.Instance.{Instance};
ghost use Rattle.crew_terms.specs.Leaf.{AreInRange, IsOnRequired, IsPrice, rho_of};
ghost use Rattle.crew_terms.specs.Rules.{IsInstance};
ghost use Rattle.crew_terms.specs.declared.TheConstants.{LAST_MINUTE, MOST_NODES};
ghost use Rattle.dossier_terms.specs.declared.Reason.{Reason};
ghost use Rattle.dossier_terms.specs.Dossier.{Dossier, IsGood, AreRows, IsSigned, IsWorthNumber, skills_of, mask_of, Written, Leaf, IsWritten, Potentials, prices_of, phi_of, no_potentials};
ghost use Rattle.crew_terms.specs.Minutes.{open_tasks, required_teams, priced, first_minute, IsListOf};
ghost use Rattle.crew_terms.specs.Branches.{splits, closed, left_open, depth};
ghost use Rattle.dossier_terms.specs.declared.DossierForm.{DossierForm};
ghost use Rattle.dossier_terms.specs.declared.DossierForm.TheVariants.{Two};
ghost use Rattle.dossier_terms.specs.Lines.{lines_of, instance_lines, frozen_lines, worth_line, steps_line, rows_lines, table_lines};
ghost use Rattle.dossier_terms.specs.Ranges.{AreNumbers, IsStepsLine};
ghost use Rattle.dossier_terms.specs.Reading.{Reading, Answer, More, Whole, No, Form, Sizes, Pools};
ghost use Rattle.dossier_terms.specs.Runs.{Run, AreRuns, runs_of, values_of};
ghost use Rattle.dossier_terms.specs.Table.{Says, Reaches, Ended};
ghost use Rattle.dossier_laws.specs.Sheet.{sheet, sheet_lines};
ghost use Rattle.dossier_laws.specs.Law.{AreRunsOfRow, IsHeadOf, IsWhole, IsRead};
ghost use Rattle.dossier_laws.specs.Listed.{IsSkillList};

mod causes;

pub use causes::{loose_choices_bound_prices, loose_splits_stay_open, no_leaf_beats_a_choice};
use crew_laws::{one_verdict, root_has_legal_plans, root_is_limits, tree_proves};

/// Lines that the table reads to an end are the lines of a good dossier.
pub fn read_is_good()
    ensures { (lines : List Words) (d : Dossier) → IsRead lines d → IsWhole lines d }
{}

/// The lines of a good dossier are read to their end.
pub fn good_is_read()
    ensures { (d : Dossier) → IsGood d → IsRead (lines_of d) d }
{}

/// No lines of a good dossier begin those of another.
pub fn one_dossier()
    ensures { (d e : Dossier) (more : List Words) → IsGood d → IsGood e
        → lines_of e ≡ lines_of d ++ more → (more ≡ []) × (d ≡ e) }
{
    one_verdict();
}

/// The table says one thing of a line, where lines have led from the start to a state: one next state, one
/// dossier or one reason.
pub fn says_one_thing()
    ensures { (lines : List Words) (s : Reading) (ws : Words) (a b : Answer) → Reaches Form lines s
        → Says s ws a → Says s ws b → a ≡ b }
{
    one_verdict();
}

/// Where lines have led from the start to a state and a good dossier's lines begin with them, the rest of its
/// lines end it from there.
pub fn rest_is_read()
    ensures { (lines more : List Words) (s : Reading) (d : Dossier) → Reaches Form lines s
        → IsGood d → lines_of d ≡ lines ++ more → Ended s more d }
{
    one_verdict();
}

/// Where the table refuses a line, no good dossier's lines begin with those so far and this one.
pub fn refused_is_not_good()
    ensures { (lines more : List Words) (s : Reading) (ws : Words) (reason : Reason) (d : Dossier) →
        Reaches Form lines s → Says s ws (No reason) → IsGood d
        → lines_of d ≡ lines ++ ws ∷ more → ⊥ }
{
    one_verdict();
}

/// Lines that lead to a state, where one more is due, are not those of a good dossier.
pub fn unended_is_not_good()
    ensures { (lines : List Words) (s : Reading) (d : Dossier) → Reaches Form lines s → IsGood d
        → lines_of d ≡ lines → ⊥ }
{
    one_verdict();
}

/// A line of which the table says what is due next goes on with the lines before it.
pub fn reading_goes_on()
    ensures { (s : Reading) (lines : List Words) (m : Reading) (ws : Words) (next : Reading) →
        Reaches s lines m → Says m ws (More next) → Reaches s (lines ++ ws ∷ []) next }
{}

/// A line of which the table says a dossier ends it with the lines before it.
pub fn reading_ends()
    ensures { (s : Reading) (lines : List Words) (m : Reading) (ws : Words) (d : Dossier) →
        Reaches s lines m → Says m ws (Whole d) → Ended s (lines ++ ws ∷ []) d }
{}

/// Behind the first line of form 2 the lines of an instance and of its frozen jobs lead to the line `pool`.
pub fn head_is_read()
    ensures { (i : Instance) (budget : ℕ) → IsInstance i → budget ≤ MOST_NODES
        → Reaches (Sizes Two) (instance_lines i budget ++ frozen_lines Two i.frozen)
        (Pools Two i budget) }
{}

/// Lines that lead from there to the line `pool` are those of the instance and of its frozen jobs.
pub fn read_head_is_good()
    ensures { (lines : List Words) (form : DossierForm) (i : Instance) (budget : ℕ) →
        Reaches (Sizes Two) lines (Pools form i budget) → (form ≡ Two) × IsHeadOf lines i budget }
{}

/// Prices, a worth and the runs of a row of potentials have one spelling each, and no two of them have the same.
pub fn numbers_are_told_apart()
    ensures prices { (count : ℕ) (x y : List ℤ) → AreNumbers IsPrice count x
        → AreNumbers IsPrice count y → map signed_decimal x ≡ map signed_decimal y → x ≡ y }
    ensures worths { (x y : ℤ) → IsWorthNumber x → IsWorthNumber y
        → worth_line x ≡ worth_line y → x ≡ y }
    ensures runs { (j : ℕ) (x y : List Run) → IsStepsLine x → IsStepsLine y
        → steps_line j x ≡ steps_line j y → x ≡ y }
{}

/// Runs that may stand in a line are those of the row that they stand for, and a row of at least one number has such runs.
pub fn rows_are_told_by_runs()
    ensures read { (first past : ℕ) (runs : List Run) → AreRuns first past runs → IsStepsLine runs
        → first < past → AreRunsOfRow first past runs (values_of past runs) }
    ensures written { (first : ℕ) (row : List ℤ) → AllByRecursion IsSigned row → 0 < length row
        → first + length row ≤ LAST_MINUTE + 1
        → AreRunsOfRow first (first + length row) (runs_of first row) row }
{}

/// One more row of potentials adds its line to those of the rows before it, and one more team its lines to those of the teams
/// before it.
pub fn lines_grow_row_by_row()
    ensures rows { (wants : ℕ → ℕ) (line : ℕ → List ℤ → Words) (read left : List ℕ)
        (rows : List (List ℤ)) (j : ℕ) (row : List ℤ) → AreRows IsSigned wants read rows
        → length row ≡ wants j → AllByRecursion IsSigned row
        → AreRows IsSigned wants (read ++ j ∷ []) (rows ++ row ∷ [])
        × (rows_lines line (read ++ j ∷ left) (rows ++ row ∷ [])
        ≡ rows_lines line (read ++ j ∷ left) rows ++ line j row ∷ []) }
    ensures tables { (form : DossierForm) (n : Limits) (k : ℕ) (tables : List Potentials)
        (table : Potentials) → table_lines form n k (tables ++ table ∷ [])
        ≡ table_lines form n k tables ++ table_lines form n (k + length tables) (table ∷ []) }
{}

/// Every legal plan of a good dossier's instance leaves at least its bound unassigned.
pub fn good_bounds()
    ensures { (d : Dossier) (p : Plan) → IsGood d → IsLegal d.instance p
        → d.bound ≤ unassigned_count p }
{
    tree_proves();
    root_is_limits();
    root_has_legal_plans();
}

/// Where the plan of a good dossier leaves as many unassigned as its bound, no legal plan leaves fewer.
pub fn met_bound_is_best()
    ensures { (d : Dossier) (p : Plan) → IsGood d → d.bound ≡ unassigned_count d.plan
        → IsLegal d.instance p → unassigned_count d.plan ≤ unassigned_count p }
{
    good_bounds();
}

/// A small dossier with a bare leaf and no pool is good, and these are its lines.
pub fn sheet_is_good()
    ensures { IsGood sheet × (lines_of sheet ≡ sheet_lines) }
{}

/// The numbers of a tree fit one another.
pub fn tree_numbers_fit()
    ensures { (t : Written) → (closed t + left_open t ≡ splits t + 1) × (depth t ≤ splits t) }
{}

/// The prices of a leaf that has the numbers that its node wants lie in their range, and only required pairs
/// have one.
pub fn written_prices_are_in_range()
    ensures { (n : Limits) (leaf : Leaf) → IsWritten n leaf → AreInRange (prices_of n leaf)
        × IsOnRequired n (prices_of n leaf) }
{}

/// A set of skills is spelled by a list of skills, and that list is of this set.
pub fn set_is_spelled()
    ensures { (mask : ℕ) → mask < 2 ^ 64 → IsSkillList (skills_of mask)
        × (mask_of (skills_of mask) ≡ mask) }
{}

/// A list of skills is of a set, which is spelled by this list.
pub fn skills_are_a_set()
    ensures { (skills : List ℕ) → IsSkillList skills → (mask_of skills < 2 ^ 64)
        × (skills_of (mask_of skills) ≡ skills) }
{}

/// The list of a set has the skills of the set, rising.
pub fn skills_are_listed()
    ensures { (mask : ℕ) → mask < 2 ^ 64 → IsListOf (λ s. bit_at mask s ≡ 1) (skills_of mask) }
{}

/// The number that a leaf writes at the place b of its row a of extras is the price of the pair of the task
/// that is the priced one at a, and the team that is the required one of it at b.
pub fn extra_is_written()
    ensures { (n : Limits) (leaf : Leaf) (a b : ℕ) → IsWritten n leaf → a < length (priced n) →
        (let j = slice_index (priced n) a in b < length (required_teams n j) →
        rho_of (prices_of n leaf) (slice_index (required_teams n j) b) j
        ≡ slice_index_or (slice_index_or leaf.extras a []) b (pos 0)) }
{}

/// The number that a leaf writes at the place m of a team's row a of potentials is the potential of the task
/// that is the open one at a, m minutes after the first minute of the team at it.
pub fn potential_is_written()
    ensures { (n : Limits) (leaf : Leaf) (k a m : ℕ) → IsWritten n leaf → k < teams_in n
        → a < length (open_tasks n k) →
        (let j = slice_index (open_tasks n k) a in
        phi_of n leaf k j (first_minute n k j + m)
        ≡ slice_index_or (slice_index_or (slice_index_or leaf.tables k no_potentials).phi a [])
        m (pos 0)) }
{}
