// The program for those who look: the words of the command line, standard input and output, a refused line on standard error,
// and the exit status of the top call.
#![tactic(auto)]

use crew_io::sink::{Sink, StdSink};
use crew_io::source::StdSource;
use desk_cli::run::{Outcome, run};
use desk_cli::status::Status;
use desk_commands::Refusal;
use dossier_commands::texts::put_no;
use std::io::{BufWriter, ErrorKind};
use std::process::ExitCode;
use std::{env, io};

/// How many bytes of output are gathered before the system is called.
const ROOM: usize = 65_536;

/// Calls the top call with the words after the program's name. Its own errors come before that call: words
/// that are no text, or want of memory for the words or the room.
fn answer(rt: &HostRuntime) -> io::Result<Outcome> {
    let alloc = rt.alloc();
    let mut words = Vec::new(alloc);
    for word in env::args(rt)?.skip(1) {
        words.push(word)?;
    }
    let mut source = StdSource::new(rt.stdin());
    let mut sink = StdSink::new(BufWriter::with_capacity(alloc, ROOM, rt.stdout())?);
    Ok(run(alloc, &words, &mut source, &mut sink))
}

/// Writes the line of a refusal on standard error. The exit status tells it too, so a fault here changes nothing.
fn tell(rt: &HostRuntime, refusal: Refusal) -> io::Result<()> {
    let mut errors = StdSink::new(BufWriter::with_capacity(rt.alloc(), 256, rt.stderr())?);
    let _ = put_no(&mut errors, refusal.line, refusal.reason);
    let _ = errors.flush();
    Ok(())
}

fn main(rt: HostRuntime) -> ExitCode {
    let status = match answer(&rt) {
        Ok(outcome) => {
            if let Some(refusal) = outcome.refusal {
                let _ = tell(&rt, refusal);
            }
            outcome.status
        }
        Err(error) if error.kind() == ErrorKind::OutOfMemory => Status::Memory,
        Err(_) => Status::Words,
    };
    ExitCode::from(status.number())
}
