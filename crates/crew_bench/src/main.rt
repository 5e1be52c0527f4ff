// A program for measurements: does one piece of the planner's work over a generated day, as often as it is told, and
// prints what it came to. The scripts in bench/ time it.
#![tactic(auto)]

mod columns;
mod days;
mod errors;
mod figures;
mod roots;
mod searches;
mod tasks;
mod widest;
mod words;

use errors::BenchError;
use std::process::ExitCode;
use std::{env, io};
use words::Work;

/// The words after the program's name.
fn words_of(rt: &HostRuntime) -> io::Result<Vec<String>> {
    let mut words = Vec::new(rt.alloc());
    for word in env::args(rt)?.skip(1) {
        words.push(word)?;
    }
    Ok(words)
}

/// Reads the words, does the work and prints its figures.
fn answer(rt: &HostRuntime) -> Result<(), BenchError> {
    let work = Work::of(&words_of(rt)?).ok_or(BenchError::Words)?;
    let figures = tasks::done(rt.alloc(), &work)?;
    println!(rt; "{figures}")?;
    Ok(())
}

fn main(rt: HostRuntime) -> ExitCode {
    match answer(&rt) {
        Ok(()) => ExitCode::from(0),
        Err(_) => ExitCode::from(2),
    }
}
