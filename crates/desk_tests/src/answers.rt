// What the program answers.
use crew_fixtures::Shown;
use crew_io::sink::MemSink;
use crew_io::source::MemSource;
use desk_cli::run::{Outcome, run};
use desk_cli::status::Status;
use std::alloc::Global;
use std::process::Abort;
use std::test::Fail;

/// More bytes than any output here has.
const ROOM: usize = 20_000;

/// What the program answers to the words with this input, and what it writes, where these reads and writes fail.
pub fn answer(
    alloc: Global,
    texts: &[&str],
    input: &[u8],
    read_fails: &[u64],
    write_fails: &[u64],
) -> Result<(Outcome, Vec<u8>), Fail> {
    let mut words = Vec::new(alloc);
    for text in texts {
        words.push(String::from_str(alloc, text)?)?;
    }
    let mut src = MemSource::new(input.to_vec(alloc)?, 4096, read_fails.to_vec(alloc)?);
    let mut out = MemSink::new(alloc, ROOM, 4096, write_fails.to_vec(alloc)?)?;
    let outcome = run(alloc, &words, &mut src, &mut out);
    Ok((outcome, out.got().to_vec(alloc)?))
}

/// Ends the test where the statuses differ.
pub fn assert_status(rt: &impl Abort, told: &Outcome, status: Status) {
    assert_eq!(rt; told.status, status);
}

/// Ends the test where the texts differ.
pub fn assert_text(rt: &impl Abort, told: &[u8], text: &[u8]) {
    let (told, text) = (Shown(told), Shown(text));
    assert!(rt; told.0 == text.0, "{told:?} is not {text:?}");
}
