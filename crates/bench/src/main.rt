// Records made-up readings and prints how many segments they make: what the benchmarks run.
//
//     bench FAMILY READINGS RUN
//
// records READINGS readings for the family `level`, `grades` or `line`; a new segment begins after every RUN of them.
#![tactic(auto)]

mod measure;
mod rows;

use family::Family;
use grades::Grades;
use level::Level;
use line::Line;
use measure::measure;
use rows::{bands, bows, masks};
use std::alloc::{AllocError, Global};
use std::{env, io};

// A store with room for a segment after every run.
fn store<F: Family>(heap: Global, readings: u32, run: u32) -> Result<Vec<u32>, AllocError> {
    let segments = (readings / run.max(1)) as usize;
    let record = usize::from(F::pick_width()) + 2;
    Vec::from_elem(
        heap,
        0,
        segments
            .saturating_add(1)
            .saturating_mul(record)
            .saturating_add(2),
    )
}

// How many segments a family makes of the readings.
fn segments<F: Family + Drop, const WIDTH: usize>(
    heap: Global,
    mut family: F,
    rows: Vec<[u32; WIDTH]>,
    readings: u32,
    run: u32,
) -> Result<Option<u32>, AllocError> {
    let mut store = store::<F>(heap, readings, run)?;
    Ok(Some(measure(&mut family, store.as_mut_slice(), rows.as_slice(), readings)))
}

// How many segments the readings make in the family of the name.
fn run_family(
    heap: Global,
    name: &str,
    readings: u32,
    run: u32,
) -> Result<Option<u32>, AllocError> {
    match name {
        "level" => segments(heap, Level::new(), bands(heap, run)?, readings, run),
        "grades" => segments(heap, Grades::new(), masks(heap, run)?, readings, run),
        "line" => segments(heap, Line::new(), bows(heap, run)?, readings, run),
        _ => Ok(None),
    }
}

fn main(rt: HostRuntime) -> io::Result<()> {
    let heap = rt.alloc();
    let mut words = env::args(&rt)?.skip(1);
    let (Some(name), Some(readings), Some(run)) = (words.next(), words.next(), words.next()) else {
        return println!(rt; "write: bench FAMILY READINGS RUN");
    };
    let (Ok(readings), Ok(run)) = (readings.as_str().parse(), run.as_str().parse()) else {
        return println!(rt; "READINGS and RUN are numbers");
    };
    match run_family(heap, name.as_str(), readings, run)? {
        Some(segments) => println!(rt;
            "{name}: {readings} readings, runs of {run}: {segments} segments"
        ),
        None => println!(rt; "FAMILY is level, grades or line"),
    }
}
