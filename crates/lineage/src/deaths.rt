// How nodes die.
ghost use Rattle.std.specs.Prelude.{◌≡◌};
ghost use Rattle.lineage.specs.Family.{family_of};
ghost use Rattle.lineage.specs.Deaths.{buried, settled};

use crate::Lineage;
use nodes::Node;

impl Lineage {
    // Buries the node: its links go, and its parent counts it among its dead.
    fn bury(&mut self, node: Node)
        ensures { family_of self.new ≡ buried node (family_of self.old) }
    {
        self.nodes.remove(node.serial);
        self.links.drain(node.serial);
        if let Some(parent) = node.parent {
            self.nodes.bereave(parent);
        }
    }

    // Buries every node that nothing keeps alive, and then those that only a dead child kept.
    pub fn settle(&mut self)
        ensures { family_of self.new ≡ settled (family_of self.old) }
    {
        while let Some(node) = self.nodes.unkept() {
            self.bury(node);
        }
    }
}
