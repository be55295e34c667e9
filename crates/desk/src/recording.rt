ghost use Rattle.std.specs.Prelude.{◌≡◌, ◌≤◌, vec_capacity};
ghost use Rattle.desk.specs.Widths.{pick_width_of};

use commands::FamilyName;
use recorder::OpenTape;

// A recording under way: the open tape and the store's words, with the family and the store's length as at opening. The
// store keeps room for that length, so that the tape can be closed whatever the host did.
pub(crate) struct Recording {
    pub(crate) tape: OpenTape,
    pub(crate) name: FamilyName,
    pub(crate) length: usize,
    pub(crate) store: Vec<u32>,
    ghost wide: { tape.width ≡ pick_width_of name },
    ghost long: { tape.length ≡ length },
    ghost room: { length ≤ vec_capacity store },
}
