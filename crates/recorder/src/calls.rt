ghost use Rattle.std.specs.Prelude.{◌≡◌, List, [], length, IfErr};
ghost use Rattle.cuttings.specs.Cutting.{Event as Logged};
ghost use Rattle.family.specs.Readings.{reading};
ghost use Rattle.recorder.specs.Views.{Sound};
ghost use Rattle.recorder.specs.Recording.{early_refusal, RecordedBy};
ghost use Rattle.recorder.specs.Histories.{world, noted, parted, Opened, Recorded, Marked, Closed, Dealt};
ghost use Rattle.recorder.specs.Law.{Law, LawAt};

use super::step::{Event, event_of};
use super::tape::{ClosedTape, OpenTape, Phase};
use super::write::write_header;
use family::Family;
use layout::places;
use words::Refusal;

impl OpenTape {
    // How many segments the store has room for. `Sound` is what holds of every open tape.
    pub fn places(&self) -> u32
        ensures is { result ≡ self.now.places }
        ensures sound { Sound self.now }
    {
        self.places
    }

    // Opens a tape over the store: restarts the family and writes the header where there is room for it. Never refuses.
    pub fn open<F: Family>(family: &mut F, store: &mut [u32]) -> OpenTape
        ensures is { Opened F.Family.meaning store.old (world result family.new store.new) }
        ensures law { LawAt F.Family.meaning [] (world result family.new store.new) }
        ensures sound { Sound result }
    {
        family.restart();
        let width = F::pick_width();
        let length = store.len();
        write_header(store, width);
        OpenTape {
            width,
            length,
            places: places(width, length),
            written: 0,
            phase: Phase::Fresh,
        }
    }

    // A reading, by the checks 8, 5, 1, 2, 3, 10.
    fn enter<F: Family>(
        &mut self,
        family: &mut F,
        store: &mut [u32],
        tick: u32,
        row: &[u32],
    ) -> Result<u32, Refusal>
        ensures is { RecordedBy F.Family.meaning (early_refusal F.Family.meaning self.old (length store.old) (reading tick row.now)) self.old family.old store.old (reading tick row.now) self.new family.new store.new result }
        ensures sound { Sound self.new }
    {
        self.as_opened::<F>(store)?;
        self.after(tick)?;
        let fits = family.fits(tick, row)?;
        self.step(family, store, event_of(fits, tick))?;
        family.take(tick, row)?;
        Ok(self.written + 1)
    }

    // Records a reading. One that fits is taken into the open run; else the open run is written as a record and a new run
    // begins; on a fresh or waiting tape a batch begins. Answers the number of segments, counting the open one. Refuses by
    // 8, 5, 1, 2, 3, 10.
    pub fn record<F: Family>(
        &mut self,
        family: &mut F,
        store: &mut [u32],
        tick: u32,
        row: &[u32],
    ) -> Result<u32, Refusal>
        ensures is { Recorded F.Family.meaning (world self.old family.old store.old) (reading tick row.now) result (world self.new family.new store.new) }
        ensures law { (log : List Logged) → Dealt F.Family.meaning log (world self.old family.old store.old) → LawAt F.Family.meaning (noted log (reading tick row.now) result) (world self.new family.new store.new) }
        ensures sound { Sound self.new }
    {
        self.enter(family, store, tick, row)
    }

    // Marks the end of a batch: the open run is written, and the next record begins a batch. Refuses by 8, 6.
    pub fn mark<F: Family>(&mut self, family: &mut F, store: &mut [u32]) -> Result<(), Refusal>
        ensures is { Marked F.Family.meaning (world self.old family.old store.old) result (world self.new family.new store.new) }
        ensures law { (log : List Logged) → Dealt F.Family.meaning log (world self.old family.old store.old) → LawAt F.Family.meaning (parted log result) (world self.new family.new store.new) }
        ensures sound { Sound self.new }
    {
        self.as_opened::<F>(store)?;
        self.step(family, store, Event::Mark)
    }

    // Spends the open tape for a closed one.
    fn spend(self) -> ClosedTape
        ensures { result.segments ≡ self.written }
    {
        let OpenTape {
            width: _,
            length: _,
            places: _,
            written,
            phase: _,
        } = self;
        ClosedTape { segments: written }
    }

    // Closes the tape: the open run, if any, is written, and the closed tape has the number of segments. A closing refused
    // by 8 hands the open tape back.
    pub fn close<F: Family>(
        mut self,
        family: &mut F,
        store: &mut [u32],
    ) -> Result<ClosedTape, (OpenTape, Refusal)>
        ensures is { Closed F.Family.meaning (world self family.old store.old) result family.new store.new }
        ensures law { (log : List Logged) → Dealt F.Family.meaning log (world self family.old store.old) → LawAt F.Family.meaning log (world self family.old store.old) }
        ensures sound { IfErr result (λ back. Sound back.0) }
    {
        if let Err(refusal) = self.as_opened::<F>(store) {
            return Err((self, refusal));
        }
        let Phase::Running { .. } = self.phase else {
            return Ok(self.spend());
        };
        if let Err(refusal) = self.step(family, store, Event::Mark) {
            return Err((self, refusal));
        }
        Ok(self.spend())
    }
}

// The law over every history of dealings with a tape, whatever the family.
pub fn law<F: Family>()
    ensures { Law F.Family.meaning }
{}
