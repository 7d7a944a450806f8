// What is asked of the links.
ghost use Rattle.std.specs.Prelude.{◌≡◌, ◌+◌, ◌≤◌, ◌++◌, length, filter};
ghost use Rattle.nodes.specs.Living.{living};
ghost use Rattle.links.specs.Link.{from, survives, children};
ghost use Rattle.links.specs.Linked.{linked};

use crate::{Link, Links};
use nodes::Nodes;
use reserved::buffer::Buffer;

// A parent and the nodes are asked of together, here and in the sweep; a struct of both would only borrow them, and is no plainer.
impl Link {
    // Whether the link is no dead link of the parent.
    pub(crate) fn survives(self, parent: u64, nodes: &Nodes) -> bool
        ensures { result ≡ survives parent (living nodes.now) self }
    {
        self.parent != parent || nodes.find(self.child).is_some()
    }
}

impl Links {
    // How many links there are, over all nodes.
    pub fn len(&self) -> usize
        ensures { result ≡ length (linked self.now) }
    {
        self.list.len()
    }

    // How many links the parent has, dead ones included. It and the next one count in a loop of their own: a chain of `filter` and
    // `count` takes up to two or three times as long.
    pub fn count(&self, parent: u64) -> usize
        ensures { result ≡ length (filter (from parent) (linked self.now)) }
    {
        let mut count = 0;
        for link in self.list.as_slice() {
            if link.parent == parent {
                count += 1;
            }
        }
        count
    }

    // How many links there would be without the dead links of the parent.
    pub fn surviving(&self, parent: u64, nodes: &Nodes) -> usize
        ensures { result ≡ length (filter (survives parent (living nodes.now)) (linked self.now)) }
    {
        let mut count = 0;
        for link in self.list.as_slice() {
            if link.survives(parent, nodes) {
                count += 1;
            }
        }
        count
    }

    // Puts the children that the parent is linked to at the end of `waiting`, in linking order.
    pub fn gather<B: Buffer<u64>>(&self, parent: u64, waiting: &mut B)
        requires { length (B.items waiting.old) + length (linked self.now) ≤ B.capacity waiting.old }
        ensures children { B.items waiting.new ≡ B.items waiting.old ++ children parent (linked self.now) }
        ensures capacity { B.capacity waiting.new ≡ B.capacity waiting.old }
    {
        for link in self.list.as_slice() {
            if link.parent == parent {
                waiting.push(link.child);
            }
        }
    }
}
