ghost use Rattle.std.specs.Prelude.{◌≡◌};
ghost use Rattle.desk.specs.Told.{is_open};

use super::calls::{serve_closed, serve_open};
use super::recording::Recording;
use super::store::host;
use super::{Answer, Problem};
use commands::Command;
use family::Family;
use std::alloc::Global;
use std::mem;

// The tape at the desk; a closed one by its store's words.
pub(crate) enum Tape {
    Nothing,
    Open(Recording),
    Closed(Vec<u32>),
}

impl Tape {
    pub(crate) fn is_open(&self) -> bool
        ensures { result ≡ is_open self.now }
    {
        matches!(self, Tape::Open(_))
    }

    // Ends the tape. One that is still open is closed.
    pub(crate) fn end(self) {
        match self {
            Tape::Open(recording) => recording.end(),
            Tape::Closed(_) | Tape::Nothing => {}
        }
    }

    // What the host does to the store.
    pub(crate) fn host(&mut self, command: Command) -> Result<Answer, Problem> {
        match self {
            Tape::Nothing => Err(Problem::NoTape),
            Tape::Open(recording) => recording.host(command),
            Tape::Closed(store) => host(store, command),
        }
    }

    // Puts another tape in place of this one, which is ended.
    pub(crate) fn replace(&mut self, tape: Tape) {
        mem::replace(self, tape).end();
    }

    // The tape after closing it with the family that is lent. Where that is refused it stays open. Closing takes an open tape
    // by value, so the tape goes in and comes out.
    fn closed<F: Family>(self, family: &mut F) -> (Tape, Result<Answer, Problem>) {
        match self {
            Tape::Nothing => (Tape::Nothing, Err(Problem::NoTape)),
            Tape::Open(recording) => match recording.close(family) {
                Ok((count, store)) => (Tape::Closed(store), Ok(Answer::Closed(count))),
                Err((recording, refusal)) => (Tape::Open(recording), Ok(Answer::Refused(refusal))),
            },
            Tape::Closed(store) => (Tape::Closed(store), Err(Problem::IsClosed)),
        }
    }

    fn close<F: Family>(&mut self, family: &mut F) -> Result<Answer, Problem> {
        let (tape, told) = mem::replace(self, Tape::Nothing).closed(family);
        self.replace(tape);
        told
    }

    // What a command does for which the family is lent.
    pub(crate) fn serve<F: Family>(
        &mut self,
        heap: Global,
        family: &mut F,
        command: Command,
    ) -> Result<Answer, Problem> {
        if let Command::Close = command {
            return self.close(family);
        }
        match self {
            Tape::Nothing => Err(Problem::NoTape),
            Tape::Open(recording) => serve_open(heap, family, recording, command),
            Tape::Closed(store) => serve_closed::<F>(heap, store.as_slice(), command),
        }
    }
}
