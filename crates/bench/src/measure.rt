ghost use Rattle.std.specs.Prelude.{◌≤◌, length};
ghost use Rattle.recorder.specs.Steps.{opened_view};

use family::Family;
use recorder::OpenTape;

// Records as many readings, a tick apart, from rows that come again and again, and closes the tape: the number of its segments,
// which are no more than the store has places.
pub fn measure<F: Family, const WIDTH: usize>(
    family: &mut F,
    store: &mut [u32],
    rows: &[[u32; WIDTH]],
    readings: u32,
) -> u32
    ensures { result ≤ (opened_view F.Family.meaning.pick_width (length store.old)).places }
{
    let mut tape = OpenTape::open(family, store);
    for (row, tick) in rows.iter().cycle().zip(0..readings) {
        let _ = tape.record(family, store, tick, row);
    }
    tape.close(family, store).unwrap().segments
}
