ghost use Rattle.std.specs.Prelude.{◌+◌, ◌≤◌};
ghost use Rattle.slots.specs.Bounds.{length_limit, mark_first};

use layout::marks::Marks;

// The slots of a handle: the number of the first one, counted from the handle's place, how many there are, and their
// marks (none: every slot is present). No number of a slot or of a mark passes 2^62.
#[derive(Clone, Copy)]
pub struct Slots {
    pub first: u64,
    pub len: u64,
    pub marks: Option<Marks>,
    ghost words_end: { first + len ≤ length_limit },
    ghost marks_end: { mark_first marks + len ≤ length_limit },
}
