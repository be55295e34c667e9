ghost use Rattle.std.specs.Prelude.{◌≡◌, pos, neg_ℤ, ◌≤ℤ◌};
ghost use Rattle.hull.specs.Hulls.{ends, steepest_to};
ghost use Rattle.family.specs.Readings.{reading};
ghost use Rattle.family.specs.Refusing.{Answered};
ghost use Rattle.family.specs.Meaning.{refusal};
ghost use Rattle.line.specs.Choices.{point};
ghost use Rattle.line.specs.LineMeaning.{line_meaning};
ghost use Rattle.line.specs.Steps.{Spans, Steps};

use crate::line::Line;
use crate::step::Step;
use crate::taken::Taken;
use family::Band;
use hull::{Hull, Point};
use slope::Bounds;
use words::Refusal;

// The low end of a reading's band.
fn low_end(tick: u32, band: Band) -> Point
    ensures { result ≡ point tick band.low }
{
    Point {
        tick,
        height: band.low,
    }
}

// The high end of a reading's band, turned over.
fn high_end(tick: u32, band: Band) -> Point
    requires { neg_ℤ (pos 2000000) ≤ℤ band.high }
    ensures { result ≡ point tick (neg_ℤ band.high) }
{
    Point {
        tick,
        height: -band.high,
    }
}

impl Line {
    // Every line, and nothing taken.
    pub fn new() -> Line
        ensures { line_meaning.restarted result }
    {
        Line {
            lows: Hull::new(),
            highs: Hull::new(),
            bounds: Bounds::open(),
            span: None,
        }
    }

    // Lets go of all that was taken.
    pub(crate) fn clear(&mut self)
        ensures { line_meaning.restarted self.new }
    {
        self.lows.clear();
        self.highs.clear();
        self.bounds = Bounds::open();
        self.span = None;
    }

    // The span with a tick more: none where the tick does not come after the last one taken and at most 255 after the first.
    fn span_with(&self, tick: u32) -> Option<Taken>
        ensures { Spans self.now tick result }
    {
        let first = match self.span {
            None => tick,
            Some(span) if span.last < tick && tick - span.first <= 255 => span.first,
            Some(_) => return None,
        };
        Some(Taken { first, last: tick })
    }

    // The bounds of the slope with a low end and a high end more, the high one turned over. Each tightens one bound, by the
    // other's hull.
    fn bounds_with(&self, low: Point, high: Point) -> Bounds
        ensures least { result.least ≡ steepest_to low self.now.bounds.least (ends self.now.highs) }
        ensures fall { result.fall ≡ steepest_to high self.now.bounds.fall (ends self.now.lows) }
    {
        Bounds {
            least: self.highs.steepest(low, self.bounds.least),
            fall: self.lows.steepest(high, self.bounds.fall),
        }
    }

    // What the reading brings: nothing where it does not fit. Refuses by 5, 1, 2, 3.
    pub(crate) fn step(&self, tick: u32, row: &[u32]) -> Result<Option<Step>, Refusal>
        ensures { Answered (refusal line_meaning (reading tick row.now)) result (Steps self.now (reading tick row.now)) }
    {
        let band = Band::of_reading(tick, row)?;
        let Some(span) = self.span_with(tick) else {
            return Ok(None);
        };
        let low = low_end(tick, band);
        let high = high_end(tick, band);
        let bounds = self.bounds_with(low, high);
        Ok(
            bounds.meet().then_some(Step {
                low,
                high,
                bounds,
                span,
            }),
        )
    }
}
