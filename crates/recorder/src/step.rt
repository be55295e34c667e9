ghost use Rattle.std.specs.Prelude.{◌≡◌, length};
ghost use Rattle.family.specs.Refusing.{Passed};
ghost use Rattle.recorder.specs.declared.tape.Phase.TheVariants.{Running};
ghost use Rattle.recorder.specs.Views.{Sound};
ghost use Rattle.recorder.specs.Steps.{opened_refusal, late_refusal, outcome_of, answer_by, view_by, store_by, StateBy, Timely};
ghost use Rattle.recorder.specs.Recording.{event_of};

use super::tape::{OpenTape, Phase};
use family::{Family, Span};
use words::{Reason, Refusal};

// What a call brings to a tape: a reading that fits the open run's state, one that does not, or a mark.
#[derive(Clone, Copy)]
pub enum Event {
    Fitting { tick: u32 },
    Unfitting { tick: u32 },
    Mark,
}

// The phase of a run that begins at a tick; `batch` says that it begins a batch.
fn begun(tick: u32, batch: bool) -> Phase
    ensures { result ≡ Running tick tick batch }
{
    Phase::Running {
        first: tick,
        last: tick,
        batch,
    }
}

// The event of a reading.
pub(crate) fn event_of(fits: bool, tick: u32) -> Event
    ensures { result ≡ event_of fits tick }
{
    if fits {
        Event::Fitting { tick }
    } else {
        Event::Unfitting { tick }
    }
}

impl OpenTape {
    // Refuses by 8 another pick's width or another store length than at opening.
    pub(crate) fn as_opened<F: Family>(&self, store: &[u32]) -> Result<(), Refusal>
        ensures is { Passed (opened_refusal self.now F.Family.meaning.pick_width (length store.now)) result }
        ensures sound { Sound self.now }
    {
        if F::pick_width() == self.width && store.len() == self.length {
            Ok(())
        } else {
            Err(Refusal::new(Reason::OtherStore))
        }
    }

    // Refuses by 5 a tick that is not above the last accepted one.
    pub(crate) fn after(&self, tick: u32) -> Result<(), Refusal>
        ensures { Passed (late_refusal self.now.phase tick) result }
    {
        match self.phase {
            Phase::Waiting { last } | Phase::Running { last, .. } if tick <= last => Err(
                Refusal::new(Reason::BadTick),
            ),
            _ => Ok(()),
        }
    }

    // The one step of a tape: the event in its phase.
    pub(crate) fn step<F: Family>(
        &mut self,
        family: &mut F,
        store: &mut [u32],
        event: Event,
    ) -> Result<(), Refusal>
        requires long { length store.old ≡ self.old.length }
        requires wide { self.old.width ≡ F.Family.meaning.pick_width }
        requires timely { Timely self.old.phase event }
        ensures answer { result ≡ answer_by (outcome_of self.old event) }
        ensures tape { self.new ≡ view_by self.old (outcome_of self.old event) }
        ensures words { store.new ≡ store_by self.old (F.Family.meaning.words family.old) store.old (outcome_of self.old event) }
        ensures state { StateBy F.Family.meaning family.old family.new (outcome_of self.old event) }
        ensures sound { Sound self.new }
    {
        match (self.phase, event) {
            (
                Phase::Running {
                    first,
                    last: _,
                    batch,
                },
                Event::Fitting { tick },
            ) => {
                self.phase = Phase::Running {
                    first,
                    last: tick,
                    batch,
                };
            }
            (Phase::Running { first, last, batch }, Event::Unfitting { tick }) => {
                if self.written + 1 >= self.places {
                    return Err(Refusal::new(Reason::NoPlace));
                }
                self.write_run(family, store, Span { first, last }, batch)?;
                family.restart();
                self.written += 1;
                self.phase = begun(tick, false);
            }
            (Phase::Running { first, last, batch }, Event::Mark) => {
                self.write_run(family, store, Span { first, last }, batch)?;
                family.restart();
                self.written += 1;
                self.phase = Phase::Waiting { last };
            }
            (
                Phase::Fresh | Phase::Waiting { .. },
                Event::Fitting { tick } | Event::Unfitting { tick },
            ) => {
                if self.written >= self.places {
                    return Err(Refusal::new(Reason::NoPlace));
                }
                family.restart();
                self.phase = begun(tick, true);
            }
            (Phase::Fresh | Phase::Waiting { .. }, Event::Mark) => return Err(Refusal::new(
                Reason::NothingToMark,
            )),
        }
        Ok(())
    }
}
