use super::Unread;
use std::str::FromStr;

// The families that a script can name.
#[derive(Clone, Copy, PartialEq, Eq, Debug)]
pub enum FamilyName {
    Level,
    Grades,
    Coarse,
}

impl FromStr for FamilyName {
    type Err = Unread;

    ghost use Rattle.commands.specs.Names.{NamesFamily};

    ghost from_str_gives = { NamesFamily };

    fn from_str(text: &str) -> Result<FamilyName, Unread> {
        match text {
            "level" => Ok(FamilyName::Level),
            "grades" => Ok(FamilyName::Grades),
            "coarse" => Ok(FamilyName::Coarse),
            _ => Err(Unread::Family),
        }
    }
}

// A command of a script. A width that is not written is the family's own.
#[derive(PartialEq, Eq, Debug, Drop)]
pub enum Command {
    Open { family: FamilyName, length: u32 },
    Record { tick: u32, row: Vec<u32> },
    Mark,
    Ask { tick: u32, width: Option<u32> },
    Close,
    Load { family: FamilyName, words: Vec<u32> },
    Value { tick: u32, width: Option<u32> },
    ItemAt { index: u32 },
    Check,
    Poke { index: u32, word: u32 },
    Resize { length: u32 },
    Lend { family: FamilyName },
    Store,
    Help,
}
