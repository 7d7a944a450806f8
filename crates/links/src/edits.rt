// How links are made and dropped.
ghost use Rattle.std.specs.Prelude.{◌≡◌, ◌<◌, [], ◌∷◌, ◌++◌, length, IfOk, filter};
ghost use Rattle.nodes.specs.Living.{living};
ghost use Rattle.links.specs.Link.{link, elsewhere, survives};
ghost use Rattle.links.specs.Linked.{linked};

use crate::{Link, Links};
use nodes::Nodes;
use reserved::Reserved;
use std::alloc::{AllocError, Global};

impl Links {
    // No link yet. Nothing is allocated after this.
    pub fn new(heap: Global) -> Result<Links, AllocError>
        ensures { IfOk result (λ t. linked t ≡ []) }
    {
        let list = Reserved::new(heap)?;
        Ok(Links { list })
    }

    // Links the child below the parent.
    pub fn add(&mut self, parent: u64, child: u64)
        requires { length (linked self.old) < 256 }
        ensures { linked self.new ≡ linked self.old ++ link parent child ∷ [] }
    {
        self.list.push(Link { parent, child });
    }

    // Drops the dead links of the parent.
    pub fn sweep(&mut self, parent: u64, nodes: &Nodes)
        ensures { linked self.new ≡ filter (survives parent (living nodes.now)) (linked self.old) }
    {
        self.list.retain(|link| link.survives(parent, nodes));
    }

    // Drops all links of the parent.
    pub fn drain(&mut self, parent: u64)
        ensures { linked self.new ≡ filter (elsewhere parent) (linked self.old) }
    {
        self.list.retain(|link| link.parent != parent);
    }
}
