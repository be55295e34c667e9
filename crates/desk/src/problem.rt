use commands::Unread;
use std::alloc::{AllocError, AllocFailed};
use std::error::Error;
use std::fmt;

// Why a line has an error for its answer.
#[derive(Clone, Copy, PartialEq, Eq, Debug)]
pub enum Problem {
    Memory,
    // the line is not UTF-8
    NoText,
    Unread(Unread),
    NoTape,
    // a command for a closed tape, or one that would replace an open tape
    IsOpen,
    // a command for an open tape
    IsClosed,
    // the store has no word of this index
    NoWord,
}

impl From<AllocError> for Problem {
    fn from(_e: AllocError) -> Problem {
        Problem::Memory
    }
}

impl<T: Drop> From<AllocFailed<T>> for Problem {
    fn from(_e: AllocFailed<T>) -> Problem {
        Problem::Memory
    }
}

impl From<Unread> for Problem {
    ghost use Rattle.std.specs.Prelude.{◌≡◌};
    ghost use Rattle.desk.specs.declared.problem.Problem.TheVariants as problems;

    ghost from_gives = { λ e problem. problem ≡ problems.Unread e };

    fn from(e: Unread) -> Problem {
        Problem::Unread(e)
    }
}

impl fmt::Display for Problem {
    fn fmt<W: fmt::Write>(&self, f: &mut fmt::Formatter<W>) -> fmt::Result {
        match self {
            Problem::Memory => f.write_str("out of memory"),
            Problem::NoText => f.write_str("the line is not UTF-8 text"),
            Problem::Unread(unread) => write!(f, "{unread}"),
            Problem::NoTape => f.write_str("there is no tape; open or load one first"),
            Problem::IsOpen => f.write_str("the tape is open; close it first"),
            Problem::IsClosed => f.write_str("the tape is closed; open one first"),
            Problem::NoWord => f.write_str(
                "the store has no such word; write an index below its length",
            ),
        }
    }
}

impl Error for Problem {}
