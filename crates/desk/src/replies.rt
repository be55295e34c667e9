use super::{Answer, Desk, Problem};
use commands::{Command, read};
use std::alloc::Global;
use std::fmt::Write;
use std::io;
use std::io::{BufRead, BufReader};

// The command of a line of a script, or none where the line is empty or a comment.
fn command_of(heap: Global, line: &[u8]) -> Result<Option<Command>, Problem> {
    let text = std::str::from_utf8(line).map_err(|_| Problem::NoText)?;
    Ok(read(heap, text)?)
}

impl Desk {
    // Answers a line of a script, or nothing where it is no command. A line that is not UTF-8 has an error for its answer.
    pub fn reply(&mut self, heap: Global, line: &[u8]) -> Option<Answer> {
        let command = command_of(heap, line).transpose()?;
        Some(command.map_or_else(Answer::Error, |command| self.answer(heap, command)))
    }
}

// Adds an answer to each line to the text, on a line of its own, until a line can't be read or the text finds no memory.
fn add_answers(
    out: &mut String,
    heap: Global,
    desk: &mut Desk,
    script: impl BufRead + Drop,
) -> io::Result<()> {
    for line in script.split(heap, b'\n') {
        if let Some(answer) = desk.reply(heap, line?.as_slice()) {
            writeln!(out, "{answer}").map_err(|_| io::Error::from(io::ErrorKind::OutOfMemory))?;
        }
    }
    Ok(())
}

// All answers to a script, a line each.
pub fn transcript(heap: Global, script: &[u8]) -> io::Result<String> {
    let script = BufReader::new(heap, script)?;
    let mut out = String::new(heap);
    let mut desk = Desk::new();
    let told = add_answers(&mut out, heap, &mut desk, script);
    desk.end();
    told?;
    Ok(out)
}
