use super::recording::Recording;
use super::tape::Tape;
use super::{Answer, Problem};
use coarse::Coarse;
use commands::{Command, FamilyName};
use grades::Grades;
use level::Level;
use std::alloc::Global;

// The state of the family that is lent.
#[derive(Clone, Copy)]
pub(crate) enum Held {
    Level(Level),
    Grades(Grades),
    Coarse(Coarse),
}

impl From<FamilyName> for Held {
    // A freshly made state of the family.
    fn from(name: FamilyName) -> Held {
        match name {
            FamilyName::Level => Held::Level(Level::new()),
            FamilyName::Grades => Held::Grades(Grades::new()),
            FamilyName::Coarse => Held::Coarse(Coarse::new()),
        }
    }
}

impl Held {
    // Opens a tape over the store with the state.
    pub(crate) fn open(&mut self, store: Vec<u32>) -> Recording {
        match self {
            Held::Level(family) => Recording::open(FamilyName::Level, family, store),
            Held::Grades(family) => Recording::open(FamilyName::Grades, family, store),
            Held::Coarse(family) => Recording::open(FamilyName::Coarse, family, store),
        }
    }

    // Lends the state to the tape for a command.
    pub(crate) fn lend(
        &mut self,
        heap: Global,
        tape: &mut Tape,
        command: Command,
    ) -> Result<Answer, Problem> {
        match self {
            Held::Level(family) => tape.serve(heap, family, command),
            Held::Grades(family) => tape.serve(heap, family, command),
            Held::Coarse(family) => tape.serve(heap, family, command),
        }
    }
}
