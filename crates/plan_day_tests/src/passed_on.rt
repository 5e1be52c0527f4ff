// What is passed on, and when: each round of a day as soon as it is done.
ghost use Rattle.std.specs.Prelude.{◌≡◌, ⊤, [], None, Ok, length};

use crate::answers::answer;
use crate::days::ONE_TASK;
use crew_cli::run::{Status, run};
use crew_fixtures::joined;
use crew_io::sink::Sink;
use crew_io::source::{Failed, MemSource};
use std::alloc::Global;
use std::test::Fail;

/// A sink that holds back what it takes up to a flush, and notes for each of the first four flushes how many bytes are passed on
/// by then.
#[derive(Drop)]
struct HoldingSink {
    taken: usize,
    passed: [usize; 4],
    flushes: usize,
}

impl Sink for HoldingSink {
    ghost got = { λ _. None };

    ghost faults = { λ _. 0 };

    ghost held = { λ _. [] };

    ghost steady = { λ _. ⊤ };

    ghost full = { λ _. ⊥ };

    fn write(&mut self, piece: &[u8]) -> Result<usize, Failed>
        ensures { result ≡ Ok (length piece.now) }
    {
        self.taken = self.taken.saturating_add(piece.len());
        Ok(piece.len())
    }

    fn flush(&mut self) -> Result<(), Failed>
        ensures { result ≡ Ok tt }
    {
        if let Some(passed) = self.passed.get_mut(self.flushes) {
            *passed = self.taken;
        }
        self.flushes = self.flushes.saturating_add(1);
        Ok(())
    }
}

/// What each flush of a command over a day passes on, and how many flushes there are.
fn passed_by(alloc: Global, word: &str, day: &[u8]) -> Result<([usize; 4], usize), Fail> {
    let mut words = Vec::new(alloc);
    words.push(String::from_str(alloc, word)?)?;
    let mut src = MemSource::new(day.to_vec(alloc)?, 4096, Vec::new(alloc));
    let mut out = HoldingSink {
        taken: 0,
        passed: [0; 4],
        flushes: 0,
    };
    let _ = run(alloc, &words, &mut src, &mut out);
    Ok((out.passed, out.flushes))
}

#[test]
fn each_round_when_it_is_done(rt: HostRuntime) -> Result<(), Fail> {
    let alloc = rt.alloc();
    let two_rounds = joined(alloc, &[ONE_TASK, b"plan,0\n"])?;
    for word in ["day", "apply"] {
        let (status, one) = answer(alloc, word, ONE_TASK)?;
        assert_eq!(&rt; status, Status::Done);
        let (_, both) = answer(alloc, word, &two_rounds)?;
        // The last flush is that of the whole call.
        assert_eq!(&rt;
            passed_by(alloc, word, &two_rounds)?,
            ([one.len(), both.len(), both.len(), 0], 3)
        );
    }
    Ok(())
}
