ghost use Rattle.std.specs.Prelude.{◌+◌, ◌≤◌};

// The first and the last tick of the readings taken.
#[derive(Clone, Copy)]
pub(crate) struct Taken {
    pub(crate) first: u32,
    pub(crate) last: u32,
    ghost order: { first ≤ last },
    ghost window: { last ≤ first + 255 },
}
