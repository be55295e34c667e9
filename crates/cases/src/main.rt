// Runs the scripts that the file `names` lists, and says of each whether its answers are those written beside it.
#![tactic(auto)]

use std::alloc::Global;
use std::{fs, io};

// The number of the first line in which two texts differ, from 1.
fn first_difference(said: &str, wanted: &str) -> Option<usize> {
    if said.lines().eq(wanted.lines()) {
        return None;
    }
    let same = said
        .lines()
        .zip(wanted.lines())
        .take_while(|(ours, theirs)| ours == theirs)
        .count();
    Some(same + 1)
}

// Where the answers to a script differ from those that are wanted.
fn run(rt: &HostRuntime, heap: Global, name: &str) -> io::Result<Option<usize>> {
    let script = fs::read(rt, format!(in heap; "{name}.in")?)?;
    let wanted = fs::read_to_string(rt, format!(in heap; "{name}.out")?)?;
    let said = desk::transcript(heap, script.as_slice())?;
    Ok(first_difference(said.as_str(), wanted.as_str()))
}

fn main(rt: HostRuntime) -> io::Result<()> {
    let heap = rt.alloc();
    let names = fs::read_to_string(&rt, "names")?;
    for name in names.lines() {
        match run(&rt, heap, name)? {
            None => println!(rt; "{name}: same")?,
            Some(line) => println!(rt; "{name}: differs at line {line}")?,
        }
    }
    Ok(())
}

#[cfg(test)]
mod tests {
    use super::*;

    #[test]
    fn the_first_difference_is_told(rt: HostRuntime) {
        assert_eq!(rt;
            first_difference("marked\nclosed 1\n", "marked\nclosed 2\n"),
            Some(2)
        );
        assert_eq!(rt; first_difference("marked\n", "marked\nclosed 1\n"), Some(2));
        assert_eq!(rt; first_difference("marked\n", "marked\n"), None);
    }
}
