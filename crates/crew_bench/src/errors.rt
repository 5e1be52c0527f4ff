// Why a measurement comes to nothing.
use crew_instance::BuildFault;
use flight_changes::ChangeFault;
use std::alloc::AllocError;
use std::io;
use thiserror::Error;

/// Why a measurement comes to nothing.
#[derive(Debug, Error, Drop)]
pub enum BenchError {
    #[error("the words are: plan, ruin, pricing, widest, ascent, master, solve, root, again, columns, using or legal, a day's number, teams, tasks, a count; for ruin a seed and how few are enough")]
    Words,
    #[error("there is no memory")]
    Memory,
    #[error("the day is refused")]
    Day,
    #[error("nothing can be written")]
    Output,
}

impl From<AllocError> for BenchError {
    fn from(_: AllocError) -> BenchError {
        BenchError::Memory
    }
}

impl From<ChangeFault> for BenchError {
    fn from(_: ChangeFault) -> BenchError {
        BenchError::Day
    }
}

impl From<BuildFault> for BenchError {
    fn from(_: BuildFault) -> BenchError {
        BenchError::Day
    }
}

impl From<io::Error> for BenchError {
    fn from(_: io::Error) -> BenchError {
        BenchError::Output
    }
}
