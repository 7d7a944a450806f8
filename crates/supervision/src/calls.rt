// The calls that make contexts and spend them.
ghost use Rattle.std.specs.Prelude.{◌≡◌, ◌+◌, ◌^◌, ◌<◌, true, false, [], IfOk, None};
ghost use Rattle.keyed.specs.Choices.{answered, whether};
ghost use Rattle.lineage.specs.Family.{open_for, aborted_at, node_free};
ghost use Rattle.lineage.specs.Births.{link_free};
ghost use Rattle.supervision.specs.Calls.{view, given_tasks, founded, child_refusal, after_child, context_refusal, closed, after_close, seated, seat_of, Keeps};

use crate::{Refusal, Tree};
use lineage::Lineage;
use lineage::walk::Walk;
use std::alloc::{AllocError, Global};

// The task that a run begins with. Its context is the top of the tree.
const ROOT_TASK: u64 = 0;

// A task and a context come together because callers name both: a struct of them would be made for one call and taken apart in it.
// What a call keeps is one fact with one word, `Keeps`. `spend`, `close_all` and `leave` differ in what goes before the settling.
impl Tree {
    // A tree of one node, whose context the root task holds. Nothing is allocated after this.
    pub fn new(heap: Global) -> Result<Tree, AllocError>
        ensures state { IfOk result (λ t. view t ≡ founded) }
        ensures marks { IfOk result (λ t. given_tasks t ≡ []) }
    {
        let mut lineage = Lineage::new(heap)?;
        let walk = Walk::new(heap)?;
        lineage.nodes.add(None, false, ROOT_TASK);
        Ok(Tree { lineage, walk })
    }

    // Gives the task a context under one that it holds: its serial, and whether it is aborted
    // already. A pair, as the definition answers it: two plain facts, of which neither hangs on the other.
    pub fn child(&mut self, task: u64, context: u64) -> Result<(u64, bool), Refusal>
        requires fits { (view self.old).next + 1 < 2 ^ 64 }
        ensures answer { result ≡ answered (child_refusal task context (view self.old)) ((view self.old).next, aborted_at context (view self.old)) }
        ensures state { view self.new ≡ after_child task context (view self.old) }
        ensures keeps { Keeps (whether (child_refusal task context (view self.old)) 1 0) self.old self.new }
    {
        self.check_child(task, context)?;
        if self.is_aborted(context) {
            let serial = self.lineage.nodes.add(None, true, task);
            return Ok((serial, true));
        }
        let serial = self.lineage.bear(context, task);
        Ok((serial, false))
    }

    // Closes the context.
    pub fn close(&mut self, task: u64, context: u64) -> Result<(), Refusal>
        ensures answer { result ≡ answered (context_refusal task context (view self.old)) tt }
        ensures state { view self.new ≡ after_close task context (view self.old) }
        ensures keeps { Keeps 0 self.old self.new }
    {
        self.check_open(task, context)?;
        self.spend(context);
        Ok(())
    }

    // Spends the context where no task can be seated.
    pub fn spend(&mut self, context: u64)
        ensures state { view self.new ≡ closed context (view self.old) }
        ensures keeps { Keeps 0 self.old self.new }
    {
        self.lineage.nodes.release(context);
        self.lineage.settle();
    }

    // Spends the context that the holder has open: the task is seated at its node, and gets a
    // context on a new child, whose serial this gives. The task has no seat yet.
    pub fn seat(&mut self, holder: u64, context: u64, task: u64) -> u64
        requires open { open_for holder context (view self.old) ≡ true }
        requires living { aborted_at context (view self.old) ≡ false }
        requires node { node_free (view self.old) ≡ true }
        requires link { link_free context (view self.old) ≡ true }
        requires fits { (view self.old).next + 1 < 2 ^ 64 }
        requires new { seat_of task (view self.old) ≡ None }
        ensures answer { result ≡ (view self.old).next }
        ensures state { view self.new ≡ seated context task (view self.old) }
        ensures keeps { Keeps 1 self.old self.new }
    {
        let serial = self.lineage.bear(context, task);
        self.lineage.nodes.seat(context, task);
        serial
    }
}
