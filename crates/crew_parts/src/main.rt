// The program for days in parts: the words of the command line, standard input and output, and the exit status of the top call.
#![tactic(auto)]

use crew_io::sink::StdSink;
use crew_io::source::StdSource;
use parts_cli::run::{Status, run};
use std::io::{BufWriter, ErrorKind};
use std::process::ExitCode;
use std::{env, io};

/// How many bytes of output are gathered before the system is called.
const ROOM: usize = 65_536;

/// Calls the top call with the words after the program's name. Its own errors come before that call: words
/// that are no text, or want of memory for the words or the room.
fn answer(rt: &HostRuntime) -> io::Result<Status> {
    let alloc = rt.alloc();
    let mut words = Vec::new(alloc);
    for word in env::args(rt)?.skip(1) {
        words.push(word)?;
    }
    let mut source = StdSource::new(rt.stdin());
    let mut sink = StdSink::new(BufWriter::with_capacity(alloc, ROOM, rt.stdout())?);
    Ok(run(alloc, &words, &mut source, &mut sink))
}

fn main(rt: HostRuntime) -> ExitCode {
    let status = match answer(&rt) {
        Ok(status) => status,
        Err(error) if error.kind() == ErrorKind::OutOfMemory => Status::Memory,
        Err(_) => Status::Words,
    };
    ExitCode::from(status.number())
}
