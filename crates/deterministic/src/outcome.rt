// What a call of a task's body comes to.

#[derive(Clone, Copy, PartialEq, Eq)]
pub enum Outcome {
    // The task waits to be dealt again.
    Pending,
    // The task is done, with a value that only the root's matters for.
    Done(i64),
    // The task failed, with a code.
    Fault(u32),
}
