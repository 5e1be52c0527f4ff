// Laws of inputs of bundles: what is refused is accepted as no bundles, and one line is refused. Each law is the contract of a
// function with nothing to do.
ghost use Rattle.std.specs.Prelude.{◌≡◌, ℕ, List};
ghost use Rattle.part_texts.specs.Accepted.{AreBundles};
ghost use Rattle.part_texts.specs.Bundle.{Bundle};
ghost use Rattle.parts_reader.specs.Input.{IsRefusal};
ghost use Rattle.parts_reader.specs.declared.reason.BundleReason.{BundleReason};

use part_texts::{
    lines_between, one_bundle_first, one_count_first, one_dossier_first, one_more_part,
};
use text_laws::words_of_line;

/// An input with a line that is refused is accepted as no list of bundles.
pub fn refused_is_not_accepted()
    ensures { (input : List ℕ) (done bundles : List Bundle) (number : ℕ) (reason : BundleReason)
        → IsRefusal input done number reason → AreBundles input bundles → ⊥ }
{
    one_bundle_first();
    one_count_first();
    one_dossier_first();
    one_more_part();
    lines_between();
    words_of_line();
    dossier_commands::laws::one_way_on();
}

/// An input is refused at one line, behind one list of bundles, for one reason.
pub fn one_refusal()
    ensures { (input : List ℕ) (done others : List Bundle) (number other : ℕ)
        (reason cause : BundleReason)
        → IsRefusal input done number reason → IsRefusal input others other cause
        → (done ≡ others) × (number ≡ other) × (reason ≡ cause) }
{
    one_bundle_first();
    one_count_first();
    one_dossier_first();
    one_more_part();
    lines_between();
    words_of_line();
    dossier_commands::laws::one_way_on();
    dossier_commands::laws::one_refusal();
}
