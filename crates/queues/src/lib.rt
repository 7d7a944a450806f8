// The ids that wait for the next round, and those of this round that are not dealt yet.
#![tactic(auto)]

ghost use Rattle.std.specs.Prelude.{◌≤◌, vec_len, vec_capacity};
ghost use Rattle.std.specs.VecDeque.{deque_len, deque_capacity};
ghost use Rattle.queues.specs.Limits.{most_waiting};

use std::collections::VecDeque;

mod calls;

// The most ids that wait, and so the most that are drained at once.
pub const MOST_WAITING: usize = 1_024;

// An id stands in a queue as often as it was queued. What waits is a vector, since it is put in order as one slice, and then becomes
// the queue that is dealt from its front. The memory of both is reserved when they are made. Neither is a `Reserved` list, since
// each becomes the other at a drain; a type for these two fields alone would be no plainer than the fact beside each.
#[derive(Drop)]
pub struct Queues {
    waiting: Vec<u64>,
    drained: VecDeque<u64>,
    ghost waits: { (vec_len waiting ≤ most_waiting) × (most_waiting ≤ vec_capacity waiting) },
    ghost drains: { (deque_len drained ≤ most_waiting) × (most_waiting ≤ deque_capacity drained) },
}
