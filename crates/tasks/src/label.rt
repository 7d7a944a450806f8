// A task's label: a few bytes, held in the label itself.
ghost use Rattle.std.specs.Prelude.{◌≤◌};
ghost use Rattle.tasks.specs.Limits.{most_label};

mod text;

// The most bytes that a label has.
pub const MOST_LABEL: usize = 32;

// The first `len` bytes are the label. It is no string, since no call may allocate, and no vector with a fixed room, since a
// task is copied and such a vector cannot be.
#[derive(Clone, Copy)]
pub struct Label {
    bytes: [u8; MOST_LABEL],
    len: usize,
    ghost inside: { len ≤ most_label },
}
