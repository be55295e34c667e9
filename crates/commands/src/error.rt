use script::Slip;
use std::alloc::{AllocError, AllocFailed};
use std::error::Error;
use std::fmt;

// How a command is written, with its arguments.
#[derive(Clone, Copy, PartialEq, Eq, Debug)]
pub enum Form {
    Open,
    Record,
    Ask,
    Load,
    Value,
    ItemAt,
    Poke,
    Resize,
    Lend,
    // a command without arguments
    Alone,
}

impl fmt::Display for Form {
    fn fmt<W: fmt::Write>(&self, f: &mut fmt::Formatter<W>) -> fmt::Result {
        f.write_str(match self {
            Form::Open => "`open FAMILY LENGTH`",
            Form::Record => "`record TICK ITEM...`",
            Form::Ask => "`ask TICK` or `ask TICK WIDTH`",
            Form::Load => "`load FAMILY HHHHHHHH...`",
            Form::Value => "`value TICK` or `value TICK WIDTH`",
            Form::ItemAt => "`item INDEX`",
            Form::Poke => "`poke INDEX HHHHHHHH`",
            Form::Resize => "`resize LENGTH`",
            Form::Lend => "`lend FAMILY`",
            Form::Alone => "it alone on its line",
        })
    }
}

// Why a line is no command.
#[derive(Clone, Copy, PartialEq, Eq, Debug)]
pub enum Unread {
    Memory,
    Unknown,
    // too few arguments or too many
    Arguments(Form),
    Family,
    Tick,
    Length,
    Width,
    Index,
    Word,
    // an item of a row, and what is wrong with it
    Item(Slip),
}

impl From<AllocError> for Unread {
    fn from(_e: AllocError) -> Unread {
        Unread::Memory
    }
}

impl<T: Drop> From<AllocFailed<T>> for Unread {
    fn from(_e: AllocFailed<T>) -> Unread {
        Unread::Memory
    }
}

impl From<Slip> for Unread {
    ghost use Rattle.std.specs.Prelude.{◌≡◌};
    ghost use Rattle.commands.specs.declared.error.Unread.TheVariants.{Item};

    ghost from_gives = { λ e unread. unread ≡ Item e };

    fn from(e: Slip) -> Unread {
        Unread::Item(e)
    }
}

impl fmt::Display for Unread {
    fn fmt<W: fmt::Write>(&self, f: &mut fmt::Formatter<W>) -> fmt::Result {
        match self {
            Unread::Memory => f.write_str("out of memory"),
            Unread::Unknown => f.write_str(
                "unknown command; commands: open record mark ask close load value item check poke resize lend store help",
            ),
            Unread::Arguments(form) => write!(f, "wrong number of arguments; write {form}"),
            Unread::Family => f.write_str("unknown family; write level, grades or coarse"),
            Unread::Tick => f.write_str("not a tick; write digits, 0 to 4294967295"),
            Unread::Length => f.write_str("not a length; write digits, 0 to 16000000"),
            Unread::Width => f.write_str("not a width; write digits, 0 to 1000000"),
            Unread::Index => f.write_str("not an index; write digits, 0 to 4294967295"),
            Unread::Word => f.write_str("not a word; write exactly eight hexadecimal digits"),
            Unread::Item(slip) => write!(f, "{slip}"),
        }
    }
}

impl Error for Unread {}
