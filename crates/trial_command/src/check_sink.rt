// A sink that checks the dossier that is written to it.
ghost use Rattle.std.specs.Prelude.{◌≡◌, ◌≤◌, ◌<◌, [], Some, Ok, IfOk, IfSome, OnOk, OnErr, IsErr, length};
ghost use Rattle.crew_io.specs.Io.{Rose, Took};
ghost use Rattle.cert_checker.specs.Checked.{verdict_of};
ghost use Rattle.dossier_terms.specs.Dossier.{Dossier, IsGood};
ghost use Rattle.dossier_terms.specs.Lines.{text_of};
ghost use Rattle.trial_command.specs.Checking.{fresh_check};
ghost use Rattle.trial_command.specs.Findings.{AreDossier};

use crate::feed::{Finding, take};
use crate::laws::good_is_found;
use crate::line_front::LineFront;
use crate::written::Written;
use cert_checker::{Checker, Verdict};
use crew_io::sink::Sink;
use crew_io::source::Failed;
use std::alloc::{AllocError, Global};
use std::marker::Model;

/// A sink that gives the dossier that is written to it to a checker, line by line, and keeps none of it but the front of a line.
/// A line that the checker refuses is taken like any other. A write fails for want of memory alone, or behind 2^62 lines.
#[derive(Drop)]
pub(crate) struct CheckSink {
    checker: Checker,
    front: LineFront,
    finding: Finding,
    failed: u64,
    written: Written,
}

impl Model for CheckSink {
    ghost use Rattle.trial_command.specs.Checking.{Checking};

    ghost Value = { Checking };

    ghost use Rattle.trial_command.specs.KeptCheck.{checking_of, IsChecking};

    ghost view = { checking_of };

    ghost invariant = { IsChecking };
}

impl CheckSink {
    /// A sink to which nothing was written.
    pub(crate) fn open(alloc: Global) -> Result<CheckSink, AllocError>
        ensures { IfOk result (λ sink. sink ≡ fresh_check) }
    {
        Ok(CheckSink {
            checker: Checker::open(alloc)?,
            front: LineFront::new(alloc),
            finding: Finding::Lines,
            failed: 0,
            written: Written::none(),
        })
    }

    /// What the dossier says that was written, where no write has failed: None where the bytes are not a good one.
    pub(crate) fn verdict(&self) -> Option<Verdict>
        requires { self.now.faults ≡ 0 }
        ensures some { IfSome result (AreDossier self.now.got) }
        ensures good { (d : Dossier) → IsGood d → self.now.got ≡ text_of d
            → result ≡ Some (verdict_of d) }
    {
        good_is_found();
        match self.finding {
            Finding::Whole(verdict) => Some(verdict),
            Finding::Lines | Finding::Refused => None,
        }
    }
}

impl Sink for CheckSink {
    ghost got = { λ s. Some s.got };

    ghost faults = { λ s. s.faults };

    ghost held = { λ _. [] };

    ghost steady = { λ _. ⊥ };

    ghost full = { λ _. ⊥ };

    fn write(&mut self, piece: &[u8]) -> Result<usize, Failed>
        ensures fits { IfOk result (λ n. n ≤ length piece.now) }
        ensures some { IfOk result (λ n. 0 < length piece.now → 0 < n) }
        ensures took { IfOk result (λ n. Took (Some self.old.got) (Some self.new.got) n piece.now) }
        ensures nothing { OnErr result (Some self.new.got ≡ Some self.old.got) }
        ensures later { self.old.faults ≤ self.new.faults }
        ensures cause { IsErr result → Rose self.old.faults self.new.faults }
        ensures uncounted { OnOk result (self.new.faults ≡ self.old.faults) }
    {
        let Ok(fed) = take(&mut self.checker, &mut self.front, self.finding, piece) else {
            self.failed = self.failed.saturating_add(1);
            return Err(Failed);
        };
        self.finding = fed.finding;
        self.written.add(&piece[..fed.taken]);
        Ok(fed.taken)
    }

    fn flush(&mut self) -> Result<(), Failed>
        ensures { (result ≡ Ok tt) × (self.new ≡ self.old) }
    {
        Ok(())
    }
}
