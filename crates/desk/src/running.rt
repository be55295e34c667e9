ghost use Rattle.std.specs.Prelude.{◌≡◌};
ghost use Rattle.family.specs.Readings.{reading};
ghost use Rattle.recorder.specs.Histories.{world, Opened, Recorded, Marked, Asked};
ghost use Rattle.desk.specs.Widths.{pick_width_of};

use super::recording::Recording;
use super::store::host;
use super::{Answer, Problem};
use coarse::Coarse;
use commands::{Command, FamilyName};
use family::Family;
use grades::Grades;
use level::Level;
use recorder::OpenTape;
use words::Refusal;

impl Recording {
    // Opens a tape over the store.
    pub(crate) fn open<F: Family>(
        name: FamilyName,
        family: &mut F,
        mut store: Vec<u32>,
    ) -> Recording
        requires { F.Family.meaning.pick_width ≡ pick_width_of name }
        ensures { Opened F.Family.meaning store.items (world result.tape family.new result.store.items) }
    {
        let length = store.len();
        let tape = OpenTape::open(family, store.as_mut_slice());
        Recording {
            tape,
            name,
            length,
            store,
        }
    }

    pub(crate) fn record<F: Family>(
        &mut self,
        family: &mut F,
        tick: u32,
        row: &[u32],
    ) -> Result<u32, Refusal>
        ensures { Recorded F.Family.meaning (world self.old.tape family.old self.old.store.items) (reading tick row.now) result (world self.new.tape family.new self.new.store.items) }
    {
        self.tape
            .record(family, self.store.as_mut_slice(), tick, row)
    }

    pub(crate) fn mark<F: Family>(&mut self, family: &mut F) -> Result<(), Refusal>
        ensures { Marked F.Family.meaning (world self.old.tape family.old self.old.store.items) result (world self.new.tape family.new self.new.store.items) }
    {
        self.tape.mark(family, self.store.as_mut_slice())
    }

    pub(crate) fn ask<F: Family>(
        &self,
        family: &F,
        tick: u32,
        row: &mut [u32],
    ) -> Result<(), Refusal>
        ensures { Asked F.Family.meaning (world self.now.tape family.now self.now.store.items) tick row.old result row.new }
    {
        self.tape.ask(family, self.store.as_slice(), tick, row)
    }

    // Closes the tape: the number of its segments, and the store's words. Where that is refused the recording goes on.
    pub(crate) fn close<F: Family>(
        self,
        family: &mut F,
    ) -> Result<(u32, Vec<u32>), (Recording, Refusal)> {
        let Recording {
            tape,
            name,
            length,
            mut store,
        } = self;
        match tape.close(family, store.as_mut_slice()) {
            Ok(closed) => Ok((closed.segments, store)),
            Err((tape, refusal)) => {
                let recording = Recording {
                    tape,
                    name,
                    length,
                    store,
                };
                Err((recording, refusal))
            }
        }
    }

    // What the host does to the store.
    pub(crate) fn host(&mut self, command: Command) -> Result<Answer, Problem> {
        host(&mut self.store, command)
    }

    // Closes the tape with a state of the family that it was opened with, over a store of the length that it had then. That
    // is never refused.
    fn end_with<F: Family + Drop>(self, mut family: F)
        requires { F.Family.meaning.pick_width ≡ pick_width_of self.name }
    {
        let Recording {
            tape,
            name: _,
            length,
            mut store,
        } = self;
        store.resize(length, 0).unwrap();
        let _ = tape.close(&mut family, store.as_mut_slice()).unwrap();
    }

    // Ends the recording, whatever the host did: the tape is closed, and what it wrote is let go.
    pub(crate) fn end(self) {
        match self.name {
            FamilyName::Level => self.end_with(Level::new()),
            FamilyName::Grades => self.end_with(Grades::new()),
            FamilyName::Coarse => self.end_with(Coarse::new()),
        }
    }
}
