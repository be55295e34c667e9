ghost use Rattle.std.specs.Prelude.{◌≡◌, ◌≤◌, length};

use crate::point::Point;

// A hull: at most 256 points, of which the first `len` count, oldest first. No more are needed: the ticks of a run rise, and
// lie within 255 of each other. An array and a length, since a state is copied and the vectors of fixed capacity are not Copy.
#[derive(Clone, Copy)]
pub struct Hull {
    pub points: [Point; 256],
    pub len: usize,
    ghost sound: { (length points ≡ 256) × (len ≤ 256) },
}
