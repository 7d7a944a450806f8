// The memory of a walk through the tree.
use links::MOST_LINKS;
use nodes::MOST_NODES;
use reserved::Reserved;

// Each link is gathered at most once, and the top waits first.
pub(crate) const MOST_WAITING: usize = MOST_LINKS + 1;

// The nodes that a cascade has yet to visit, and the tasks that it has found so far: at most one of
// each node, which is aborted at most once.
#[derive(Drop)]
pub struct Walk {
    pub(crate) waiting: Reserved<u64, MOST_WAITING>,
    pub(crate) marks: Reserved<u64, MOST_NODES>,
}
