// The living nodes of a supervision tree, in ascending order of their serials.
#![tactic(auto)]

ghost use Rattle.nodes.specs.Node.{serial_of};

use keyed::record::Record;
use keyed::table::Table;

pub mod edits;
pub mod reads;

// So many nodes live at once, the top of the tree among them.
pub const MOST_NODES: usize = 128;

// A node and the context that was made with it; both have the same serial.
#[derive(Clone, Copy, PartialEq, Eq)]
pub struct Node {
    pub serial: u64,
    pub parent: Option<u64>,
    pub aborted: bool,
    // The task that holds the node's context, while it is open.
    pub owner: Option<u64>,
    // The task that is seated here, until it ends.
    pub task: Option<u64>,
    // How many children have died since dead links were last dropped here.
    pub stale: u64,
}

// Nodes are told apart by their serials.
impl Record for Node {
    ghost key = { serial_of };

    fn key(&self) -> u64 {
        self.serial
    }
}

// The nodes that live. Memory is reserved when they are made.
#[derive(Drop)]
pub struct Nodes {
    table: Table<Node, MOST_NODES>,
}
