// What the end of a task does to the tree: its contexts close, then what is below its node is
// aborted, and at last it leaves its node.
ghost use Rattle.std.specs.Prelude.{◌≡◌};
ghost use Rattle.lineage.specs.Cascade.{cascaded};
ghost use Rattle.supervision.specs.Laws.{Cascaded, Later};
ghost use Rattle.supervision.specs.Calls.{view, given_tasks, closed_all, left, Keeps};

use crate::Tree;

// `close_all`, `leave` and `spend` differ in what goes before the settling, which each names: one function over a step is no plainer.
impl Tree {
    // Closes every context that the task holds.
    pub fn close_all(&mut self, task: u64)
        ensures state { view self.new ≡ closed_all task (view self.old) }
        ensures keeps { Keeps 0 self.old self.new }
    {
        self.lineage.nodes.release_all(task);
        self.lineage.settle();
    }

    // Aborts the node and all below it. The tasks that are seated there stand in `marks` then: a
    // node's before those below it, and the last child first. What was aborted before is passed
    // over.
    pub fn cascade(&mut self, node: u64)
        ensures state { view self.new ≡ (cascaded node (view self.old)).0 }
        ensures marks { given_tasks self.new ≡ (cascaded node (view self.old)).1 }
        ensures law { Cascaded (view self.old) (view self.new) node (given_tasks self.new) }
        ensures later { Later 0 (view self.old) (view self.new) }
    {
        self.walk.abort(&mut self.lineage, node);
    }

    // The task, which has ended, leaves its node.
    pub fn leave(&mut self, task: u64)
        ensures state { view self.new ≡ left task (view self.old) }
        ensures keeps { Keeps 0 self.old self.new }
    {
        self.lineage.nodes.vacate(task);
        self.lineage.settle();
    }
}
