// Reads a script from standard input, a command a line, and prints one answer line for each command.
#![tactic(auto)]

use desk::Desk;
use std::alloc::Global;
use std::io;
use std::io::{BufRead, BufReader};

// Answers the lines, until one can't be read or its answer can't be printed.
fn answer_lines(
    rt: &HostRuntime,
    heap: Global,
    desk: &mut Desk,
    script: impl BufRead + Drop,
) -> io::Result<()> {
    for line in script.split(heap, b'\n') {
        if let Some(answer) = desk.reply(heap, line?.as_slice()) {
            println!(rt; "{answer}")?;
        }
    }
    Ok(())
}

fn main(rt: HostRuntime) -> io::Result<()> {
    let heap = rt.alloc();
    let script = BufReader::new(heap, rt.stdin())?;
    let mut desk = Desk::new();
    let told = answer_lines(&rt, heap, &mut desk, script);
    desk.end();
    told
}
