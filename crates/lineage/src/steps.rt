// The cascade: a node and all below it are aborted.
ghost use Rattle.std.specs.Prelude.{◌≡◌, ◌+◌, ◌<◌, ◌≤◌, [], ◌++◌, length, IfOk};
ghost use Rattle.std.specs.Option.{option_to_list};
ghost use Rattle.lineage.specs.Family.{family_of};
ghost use Rattle.lineage.specs.Cascade.{step, cascaded, unaborted};
ghost use Rattle.lineage.specs.Walked.{to_mark, to_visit};

use crate::Lineage;
use crate::walk::Walk;
use nodes::Node;
use reserved::Reserved;
use std::alloc::{AllocError, Global};

impl Walk {
    // A walk that has not begun. Nothing is allocated after this.
    pub fn new(heap: Global) -> Result<Walk, AllocError>
        ensures { IfOk result (λ w. to_mark w ≡ []) }
    {
        let waiting = Reserved::new(heap)?;
        let marks = Reserved::new(heap)?;
        Ok(Walk { waiting, marks })
    }

    // The tasks that the last walk found, in order.
    pub fn marks(&self) -> &[u64]
        ensures { result.now ≡ to_mark self.now }
    {
        self.marks.as_slice()
    }

    // Notes the task, if there is one.
    fn note(&mut self, task: Option<u64>)
        requires { length (to_mark self.old) < 128 }
        ensures marked { to_mark self.new ≡ to_mark self.old ++ option_to_list task }
        ensures waiting { to_visit self.new ≡ to_visit self.old }
    {
        if let Some(task) = task {
            self.marks.push(task);
        }
    }

    // One step: the node is aborted, its task is noted, and its children wait.
    fn visit(&mut self, lineage: &mut Lineage, serial: u64)
        requires waiting { length (to_visit self.old) + length (family_of lineage.old).links ≤ 256 }
        requires marks { length (to_mark self.old) + unaborted (family_of lineage.old).nodes ≤ 128 }
        ensures after { family_of lineage.new ≡ (step serial (family_of lineage.old)).after }
        ensures waiting { to_visit self.new ≡ to_visit self.old ++ (step serial (family_of lineage.old)).below }
        ensures marked { to_mark self.new ≡ to_mark self.old ++ (step serial (family_of lineage.old)).marks }
    {
        let Some(node) = lineage.nodes.find(serial) else {
            return;
        };
        if node.aborted {
            return;
        }
        lineage.nodes.put(Node {
            aborted: true,
            stale: 0,
            ..node
        });
        self.note(node.task);
        lineage.links.gather(serial, &mut self.waiting);
        lineage.links.drain(serial);
    }

    // Aborts the node and all below it, and notes the tasks that are seated there: a node's before
    // those below it, and the last child first. What was aborted before is passed over.
    pub fn abort(&mut self, lineage: &mut Lineage, top: u64)
        ensures after { family_of lineage.new ≡ (cascaded top (family_of lineage.old)).0 }
        ensures marks { to_mark self.new ≡ (cascaded top (family_of lineage.old)).1 }
    {
        self.waiting.clear();
        self.marks.clear();
        self.waiting.push(top);
        while let Some(next) = self.waiting.pop() {
            self.visit(lineage, next);
        }
    }
}
