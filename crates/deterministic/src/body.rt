// The body that is called.

#[derive(Clone, Copy, PartialEq, Eq)]
pub struct Body {
    // The task whose body it is.
    pub task: u64,
    // How many of its calls were granted in this poll.
    pub granted: u64,
}
