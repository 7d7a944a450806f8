// How a node is born.
ghost use Rattle.std.specs.Prelude.{◌≡◌, ◌+◌, ◌^◌, ◌<◌, [], length, IfOk};
ghost use Rattle.lineage.specs.Family.{family, family_of};
ghost use Rattle.lineage.specs.Births.{tidied, born};

use crate::Lineage;
use links::Links;
use nodes::{Node, Nodes};
use std::alloc::{AllocError, Global};

// With so many dead children a node's dead links are dropped before the next link: seldom, so that
// a parent of many short-lived children does not pay for it at each birth.
pub const STALE_LINKS: u64 = 32;

impl Lineage {
    // No node and no link yet. Nothing is allocated after this.
    pub fn new(heap: Global) -> Result<Lineage, AllocError>
        ensures { IfOk result (λ l. family_of l ≡ family [] [] 0) }
    {
        let nodes = Nodes::new(heap)?;
        let links = Links::new(heap)?;
        Ok(Lineage { nodes, links })
    }

    // What comes before a link below the parent.
    pub fn tidy(&mut self, parent: u64)
        ensures { family_of self.new ≡ tidied parent (family_of self.old) }
    {
        if let Some(node) = self.nodes.find(parent) {
            if node.stale >= STALE_LINKS {
                self.links.sweep(parent, &self.nodes);
                self.nodes.put(Node { stale: 0, ..node });
            }
        }
    }

    // A child of the parent, with a context that the owner holds; gives its serial.
    pub fn bear(&mut self, parent: u64, owner: u64) -> u64
        requires node { length (family_of self.old).nodes < 128 }
        requires link { length (tidied parent (family_of self.old)).links < 256 }
        requires fits { (family_of self.old).next + 1 < 2 ^ 64 }
        ensures serial { result ≡ (family_of self.old).next }
        ensures after { family_of self.new ≡ born parent owner (family_of self.old) }
    {
        self.tidy(parent);
        let serial = self.nodes.add(Some(parent), false, owner);
        self.links.add(parent, serial);
        serial
    }
}
