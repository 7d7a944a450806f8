// The links of a supervision tree: from a node to each child that was linked below it, in linking order.
#![tactic(auto)]

use reserved::Reserved;

pub mod edits;
pub mod reads;

// So many links there are at once, over all nodes; those to dead nodes count until they are dropped.
pub const MOST_LINKS: usize = 256;

#[derive(Clone, Copy, PartialEq, Eq)]
pub struct Link {
    pub parent: u64,
    pub child: u64,
}

// All links of the tree. Memory is reserved when they are made.
#[derive(Drop)]
pub struct Links {
    list: Reserved<Link, MOST_LINKS>,
}
