ghost use Rattle.std.specs.Prelude.{◌≡◌, true, false, Err};
ghost use Rattle.desk.specs.declared.answer.Answer.TheVariants.{Error};
ghost use Rattle.desk.specs.declared.problem.Problem.TheVariants.{IsOpen};
ghost use Rattle.desk.specs.Told.{is_open, replaces};

use super::held::Held;
use super::tape::Tape;
use super::{Answer, Problem};
use commands::{Command, FamilyName};
use std::alloc::Global;

// What stands on the desk: the state of the family that is lent, and the tape with its store.
pub struct Desk {
    held: Held,
    tape: Tape,
}

impl Desk {
    // An empty desk: no tape is open.
    pub fn new() -> Desk
        ensures { is_open result.tape ≡ false }
    {
        Desk {
            held: Held::from(FamilyName::Level),
            tape: Tape::Nothing,
        }
    }

    // Ends the script: a tape that is still open is closed, and nothing is told of it.
    pub fn end(self) {
        let Desk { held: _, tape } = self;
        tape.end();
    }

    // Puts a tape in place of what was there. One that was still open is closed.
    fn place(&mut self, held: Held, tape: Tape) {
        self.held = held;
        self.tape.replace(tape);
    }

    // Opens a tape in place of what was there.
    fn open(&mut self, heap: Global, name: FamilyName, length: u32) -> Result<Answer, Problem> {
        let store = Vec::from_elem(heap, 0, length as usize)?;
        let mut held = Held::from(name);
        let recording = held.open(store);
        let places = recording.tape.places();
        self.place(held, Tape::Open(recording));
        Ok(Answer::Opened(places))
    }

    // Takes the words as a closed tape's store, in place of what was there.
    fn load(&mut self, name: FamilyName, words: Vec<u32>) -> Answer {
        let length = words.len();
        self.place(Held::from(name), Tape::Closed(words));
        Answer::Loaded(length)
    }

    // Lends a fresh state of the family from now on.
    fn change(&mut self, name: FamilyName) -> Result<Answer, Problem> {
        if let Tape::Nothing = self.tape {
            return Err(Problem::NoTape);
        }
        self.held = Held::from(name);
        Ok(Answer::Lent)
    }

    // Carries a command out. A tape that is open is not replaced.
    fn obey(&mut self, heap: Global, command: Command) -> Result<Answer, Problem>
        ensures { is_open self.old.tape ≡ true → replaces command ≡ true → (self.new ≡ self.old) × (result ≡ Err IsOpen) }
    {
        match command {
            Command::Open { .. } | Command::Load { .. } if self.tape.is_open() => {
                Err(Problem::IsOpen)
            }
            Command::Open { family, length } => self.open(heap, family, length),
            Command::Load { family, words } => Ok(self.load(family, words)),
            Command::Lend { family } => self.change(family),
            Command::Poke { .. } | Command::Resize { .. } | Command::Store => {
                self.tape.host(command)
            }
            Command::Help => Ok(Answer::Help),
            other => self.held.lend(heap, &mut self.tape, other),
        }
    }

    // Carries a command out and answers it. An error leaves the desk as it was. A tape that is open is not replaced.
    pub fn answer(&mut self, heap: Global, command: Command) -> Answer
        ensures { is_open self.old.tape ≡ true → replaces command ≡ true → (self.new ≡ self.old) × (result ≡ Error IsOpen) }
    {
        self.obey(heap, command).unwrap_or_else(Answer::Error)
    }
}
