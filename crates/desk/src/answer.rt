use super::Problem;
use std::fmt;
use words::Refusal;

// The answer to a command.
#[derive(PartialEq, Eq, Debug, Drop)]
pub enum Answer {
    // the places of the store
    Opened(u32),
    // how many segments there are, counting the open one
    Segments(u32),
    Marked,
    // how many segments the closed tape has
    Closed(u32),
    // how many words were loaded
    Loaded(usize),
    Value(Vec<u32>),
    // the place and the words of a record that begins a batch
    Batch(usize, Vec<u32>),
    // the place and the words of a record that continues a batch
    Continuation(usize, Vec<u32>),
    // how many records the tape has
    Lawful(u32),
    Poked,
    Resized(u32),
    Lent,
    Store(Vec<u32>),
    Help,
    Refused(Refusal),
    // a refusal that leaves an answer row
    RefusedRow(Refusal, Vec<u32>),
    Error(Problem),
}

// Words, each after a blank.
#[derive(Clone, Copy)]
struct Words<'a>(&'a [u32]);

impl fmt::Display for Words<'_> {
    fn fmt<W: fmt::Write>(&self, f: &mut fmt::Formatter<W>) -> fmt::Result {
        for word in self.0 {
            write!(f, " {word:08X}")?;
        }
        Ok(())
    }
}

// A refusal by its number and its place.
#[derive(Clone, Copy)]
struct Refused(Refusal);

impl fmt::Display for Refused {
    fn fmt<W: fmt::Write>(&self, f: &mut fmt::Formatter<W>) -> fmt::Result {
        write!(f, "refused {} {}", self.0.number(), self.0.place)
    }
}

impl fmt::Display for Answer {
    fn fmt<W: fmt::Write>(&self, f: &mut fmt::Formatter<W>) -> fmt::Result {
        match self {
            Answer::Opened(places) => write!(f, "opened places {places}"),
            Answer::Segments(count) => write!(f, "segments {count}"),
            Answer::Marked => f.write_str("marked"),
            Answer::Closed(count) => write!(f, "closed {count}"),
            Answer::Loaded(length) => write!(f, "loaded {length}"),
            Answer::Value(row) => write!(f, "value{}", Words(row)),
            Answer::Batch(place, words) => write!(f, "batch {place}{}", Words(words)),
            Answer::Continuation(place, words) => write!(f, "continuation {place}{}", Words(words)),
            Answer::Lawful(count) => write!(f, "lawful {count}"),
            Answer::Poked => f.write_str("poked"),
            Answer::Resized(length) => write!(f, "resized {length}"),
            Answer::Lent => f.write_str("lent"),
            Answer::Store(words) => write!(f, "store{}", Words(words)),
            Answer::Help => f.write_str(
                "commands: open record mark ask close load value item check poke resize lend store help",
            ),
            Answer::Refused(refusal) => write!(f, "{}", Refused(*refusal)),
            Answer::RefusedRow(refusal, row) => write!(
                f,
                "{} row{}",
                Refused(*refusal),
                Words(row)
            ),
            Answer::Error(problem) => write!(f, "error: {problem}"),
        }
    }
}
