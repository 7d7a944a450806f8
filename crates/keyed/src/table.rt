// A table of records, by ascending key.
ghost use Rattle.std.specs.Prelude.{◌≡◌, true};
ghost use Rattle.keyed.specs.Keyed.{ordered};
ghost use Rattle.reserved.specs.Held.{held};

use crate::record::Record;
use reserved::Reserved;

mod calls;

// Keys rise: the next record that is added has a key of at least `next`. The memory for N records is reserved when it is made.
#[derive(Drop)]
pub struct Table<T: Record, const N: usize> {
    rows: Reserved<T, N>,
    next: u64,
    ghost order: { ordered T.key 0 next (held rows) ≡ true },
}
