use std::marker::Model;

// Where an open tape stands. `last` is the last accepted tick.
#[derive(Clone, Copy)]
pub enum Phase {
    // nothing was accepted yet
    Fresh,
    // after a mark, with nothing accepted since
    Waiting { last: u32 },
    // a run is open, from `first` to `last`; `batch` says that it begins a batch
    Running { first: u32, last: u32, batch: bool },
}

// An open tape: the picks' width and the store's length as at opening, the places of the store, how many records are
// written, and the phase. It is no Drop: an open run would be lost with it, so it is spent by closing.
pub struct OpenTape {
    pub(crate) width: u16,
    pub(crate) length: usize,
    pub(crate) places: u32,
    pub(crate) written: u32,
    pub(crate) phase: Phase,
}

impl Model for OpenTape {
    ghost use Rattle.recorder.specs.Views.{View, Sound};

    ghost Value = { View };

    ghost view = { λ a. record { width = a.width; length = a.length; places = a.places; written = a.written; phase = a.phase } };

    ghost invariant = { λ a. Sound (record { width = a.width; length = a.length; places = a.places; written = a.written; phase = a.phase }) };
}

// A closed tape: how many segments it has.
#[derive(Clone, Copy)]
pub struct ClosedTape {
    pub segments: u32,
}
