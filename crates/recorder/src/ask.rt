ghost use Rattle.std.specs.Prelude.{◌≡◌, ◌≤◌, true, List, length, replicate, None, Err};
ghost use Rattle.cuttings.specs.Cutting.{Event as Logged};
ghost use Rattle.family.specs.Refusing.{Passed, first_refusal, spans};
ghost use Rattle.reader.specs.Reads.{AnswersRow, row_tick_refusal};
ghost use Rattle.recorder.specs.Steps.{opened_refusal};
ghost use Rattle.recorder.specs.Asking.{run_value, by_phase, records_value};
ghost use Rattle.recorder.specs.Histories.{world, Asked, Dealt};
ghost use Rattle.recorder.specs.Views.{Sound};
ghost use Rattle.recorder.specs.Law.{LawAt};

use super::tape::{OpenTape, Phase};
use family::{Family, Span, clear};
use layout::Records;
use reader::{check_request, read_found};
use words::{Reason, Refusal};

// The value of a run that is still open, by its present pick: 11 at place 1 where the pick is unlawful for the run.
fn present<F: Family>(
    family: &F,
    slot: &mut [u32],
    run: Span,
    tick: u32,
    row: &mut [u32],
) -> Result<(), Refusal>
    requires wide { length slot.old ≡ F.Family.meaning.pick_width }
    requires narrow { length slot.old ≤ 12 }
    requires asked { row_tick_refusal F.Family.meaning (length row.old) tick ≡ None }
    requires spanned { spans run.first run.last tick ≡ true }
    ensures { AnswersRow (run_value F.Family.meaning (F.Family.meaning.words family.now) run.first run.last tick) row.old result row.new }
{
    family.pick(slot)?;
    F::value(slot, run, tick, row).map_err(|_| Refusal::at(Reason::Unlawful, 1))
}

// Refuses, with every word of the answer row 0.
fn refuse(row: &mut [u32], refusal: Refusal) -> Result<(), Refusal>
    ensures answer { result ≡ Err refusal }
    ensures row { row.new ≡ replicate (length row.old) 0 }
{
    clear(row);
    Err(refusal)
}

impl OpenTape {
    // The checks of asking: 8, 9, 5.
    fn may_ask<F: Family>(&self, store: &[u32], len: usize, tick: u32) -> Result<(), Refusal>
        ensures is { Passed (first_refusal (opened_refusal self.now F.Family.meaning.pick_width (length store.now)) (row_tick_refusal F.Family.meaning len tick)) result }
        ensures sound { Sound self.now }
    {
        self.as_opened::<F>(store)?;
        check_request::<F>(len, tick)
    }

    // The open run's value where it spans the tick, else what the records say.
    fn answer<F: Family>(
        &self,
        family: &F,
        store: &[u32],
        tick: u32,
        row: &mut [u32],
    ) -> Result<(), Refusal>
        requires { first_refusal (opened_refusal self.now F.Family.meaning.pick_width (length store.now)) (row_tick_refusal F.Family.meaning (length row.old) tick) ≡ None }
        ensures { AnswersRow (by_phase F.Family.meaning self.now.phase family.now tick (records_value F.Family.meaning store.now self.now.written tick)) row.old result row.new }
    {
        if let Phase::Running { first, last, .. } = self.phase {
            let run = Span { first, last };
            if run.holds(tick) {
                let mut slot = [0u32; 12];
                return present(family, &mut slot[0..self.width as usize], run, tick, row);
            }
        }
        let records = Records {
            store,
            width: self.width,
            count: self.written,
        };
        let found = records.find::<F>(tick);
        read_found::<F>(&records, found, tick, row)
    }

    // Asks for the value at a tick: from the open run's present pick where it spans the tick, else from the tape's own
    // records in order up to the first that spans it. Refuses by 8, 9, 5, and then by 11 or 7. A refusal leaves every word
    // of the row 0.
    pub fn ask<F: Family>(
        &self,
        family: &F,
        store: &[u32],
        tick: u32,
        row: &mut [u32],
    ) -> Result<(), Refusal>
        ensures is { Asked F.Family.meaning (world self.now family.now store.now) tick row.old result row.new }
        ensures law { (log : List Logged) → Dealt F.Family.meaning log (world self.now family.now store.now) → LawAt F.Family.meaning log (world self.now family.now store.now) }
        ensures sound { Sound self.now }
    {
        if let Err(refusal) = self.may_ask::<F>(store, row.len(), tick) {
            return refuse(row, refusal);
        }
        self.answer(family, store, tick, row)
    }
}
