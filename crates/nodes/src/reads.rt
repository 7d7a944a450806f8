// What is asked of the nodes.
ghost use Rattle.std.specs.Prelude.{◌≡◌, length};
ghost use Rattle.keyed.specs.Keyed.{find};
ghost use Rattle.keyed.specs.Members.{any, first};
ghost use Rattle.nodes.specs.Node.{serial_of, child_of, seats, kept, unkept};
ghost use Rattle.nodes.specs.Living.{living, next_serial};

use crate::{Node, Nodes};

impl Nodes {
    // How many nodes live.
    pub fn len(&self) -> usize
        ensures { result ≡ length (living self.now) }
    {
        self.table.len()
    }

    // The serial that the next node gets.
    pub fn next_serial(&self) -> u64
        ensures { result ≡ next_serial self.now }
    {
        self.table.next()
    }

    // The node with this serial, if it lives.
    pub fn find(&self, serial: u64) -> Option<Node>
        ensures { result ≡ find serial_of serial (living self.now) }
    {
        self.table.find(serial)
    }

    // The node where the task is seated.
    pub fn seat_of(&self, task: u64) -> Option<Node>
        ensures { result ≡ first (seats task) (living self.now) }
    {
        self.table
            .as_slice()
            .iter()
            .find(|node| node.task == Some(task))
            .copied()
    }

    // Whether the node has a living child.
    fn has_child(&self, serial: u64) -> bool
        ensures { result ≡ any (child_of serial) (living self.now) }
    {
        self.table
            .as_slice()
            .iter()
            .any(|node| node.parent == Some(serial))
    }

    // Whether an open context, a task or a living child keeps the node alive.
    fn is_kept(&self, node: Node) -> bool
        ensures { result ≡ kept (living self.now) node }
    {
        node.owner.is_some() || node.task.is_some() || self.has_child(node.serial)
    }

    // A node that nothing keeps alive, if there is one.
    pub fn unkept(&self) -> Option<Node>
        ensures { result ≡ first (unkept (living self.now)) (living self.now) }
    {
        self.table
            .as_slice()
            .iter()
            .find(|node| !self.is_kept(**node))
            .copied()
    }
}
