ghost use Rattle.std.specs.Prelude.{IfOk};
ghost use Rattle.commands.specs.Bounds.{Bounded, Within};

use super::arguments::{any_number, length, row, width, word, words};
use super::{Command, Form, Unread};
use std::alloc::Global;

// The commands of the recorder, over an open tape.
fn recording(heap: Global, parts: &[&str]) -> Result<Command, Unread>
    ensures { IfOk result Bounded }
{
    match parts {
        ["open", name, text] => Ok(Command::Open {
            family: name.parse()?,
            length: length(text)?,
        }),
        ["open", ..] => Err(Unread::Arguments(Form::Open)),
        ["record", text, items @ ..] => Ok(Command::Record {
            tick: any_number(text, Unread::Tick)?,
            row: row(heap, items)?,
        }),
        ["record"] => Err(Unread::Arguments(Form::Record)),
        ["ask", text, rest @ ..] => Ok(Command::Ask {
            tick: any_number(text, Unread::Tick)?,
            width: width(rest, Form::Ask)?,
        }),
        ["ask"] => Err(Unread::Arguments(Form::Ask)),
        _ => reading(heap, parts),
    }
}

// The commands of the reader, over a closed tape.
fn reading(heap: Global, parts: &[&str]) -> Result<Command, Unread>
    ensures { IfOk result Bounded }
{
    match parts {
        ["load", name, texts @ ..] => Ok(Command::Load {
            family: name.parse()?,
            words: words(heap, texts)?,
        }),
        ["load"] => Err(Unread::Arguments(Form::Load)),
        ["value", text, rest @ ..] => Ok(Command::Value {
            tick: any_number(text, Unread::Tick)?,
            width: width(rest, Form::Value)?,
        }),
        ["value"] => Err(Unread::Arguments(Form::Value)),
        ["item", text] => Ok(Command::ItemAt {
            index: any_number(text, Unread::Index)?,
        }),
        ["item", ..] => Err(Unread::Arguments(Form::ItemAt)),
        _ => hosting(parts),
    }
}

// What the host does to the store and the family that it lends.
fn hosting(parts: &[&str]) -> Result<Command, Unread>
    ensures { IfOk result Bounded }
{
    match parts {
        ["poke", at, text] => Ok(Command::Poke {
            index: any_number(at, Unread::Index)?,
            word: word(text)?,
        }),
        ["poke", ..] => Err(Unread::Arguments(Form::Poke)),
        ["resize", text] => Ok(Command::Resize {
            length: length(text)?,
        }),
        ["resize", ..] => Err(Unread::Arguments(Form::Resize)),
        ["lend", name] => Ok(Command::Lend {
            family: name.parse()?,
        }),
        ["lend", ..] => Err(Unread::Arguments(Form::Lend)),
        _ => alone(parts),
    }
}

// The commands without arguments.
fn alone(parts: &[&str]) -> Result<Command, Unread>
    ensures { IfOk result Bounded }
{
    match parts {
        ["mark"] => Ok(Command::Mark),
        ["close"] => Ok(Command::Close),
        ["check"] => Ok(Command::Check),
        ["store"] => Ok(Command::Store),
        ["help"] => Ok(Command::Help),
        ["mark" | "close" | "check" | "store" | "help", ..] => Err(Unread::Arguments(Form::Alone)),
        _ => Err(Unread::Unknown),
    }
}

// The command of a line, or none where the line is empty or a comment. A length that it gives is at most 16,000,000, a
// width at most 1,000,000.
pub fn read(heap: Global, line: &str) -> Result<Option<Command>, Unread>
    ensures { IfOk result Within }
{
    let parts: Vec<&str> = line.split_ascii_whitespace().collect(heap)?;
    match parts.as_slice() {
        [] => Ok(None),
        [first, ..] if first.starts_with('#') => Ok(None),
        parts => recording(heap, parts).map(Some),
    }
}
