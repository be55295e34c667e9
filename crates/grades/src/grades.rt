ghost use Rattle.std.specs.Prelude.{◌<◌};

// A state of the grades family: the grades whose bits are set in the mask are still allowed, and `last` is the last tick taken.
#[derive(Clone, Copy)]
pub struct Grades {
    pub(crate) mask: u32,
    pub(crate) last: Option<u32>,
    ghost some: { 0 < mask },
    ghost small: { mask < 268435456 },
}
