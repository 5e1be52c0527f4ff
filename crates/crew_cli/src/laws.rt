// A law of two commands: what `squeeze` writes is what `squeeze-check` says yes to.
ghost use Rattle.std.specs.Prelude.{◌≢◌, ◌≤◌, ℕ, List, [], length};
ghost use Rattle.crew_terms.specs.declared.TheConstants.{LONGEST_INPUT};
ghost use Rattle.dossier_terms.specs.Dossier.{Dossier};
ghost use Rattle.squeeze_command.specs.Sheets.{IsTextOfSheets};
ghost use Rattle.crew_cli.specs.Run.{AreSheets};

/// What `squeeze` writes for some dossiers, in whichever number of steps, is input that `squeeze-check` takes to its end, as long as
/// it is no longer than an input may be.
pub fn squeezed_sheets_are_taken()
    ensures { (steps : ℕ) (dossiers : List Dossier) (text : List ℕ) → IsTextOfSheets steps dossiers text
        → dossiers ≢ [] → length text ≤ LONGEST_INPUT → AreSheets text }
{}
