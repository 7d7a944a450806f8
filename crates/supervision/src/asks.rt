// What is asked of a tree.
ghost use Rattle.std.specs.Prelude.{◌≡◌, true, length};
ghost use Rattle.keyed.specs.Choices.{answered};
ghost use Rattle.lineage.specs.Family.{open_for, aborted_at, node_free};
ghost use Rattle.lineage.specs.Births.{link_free};
ghost use Rattle.supervision.specs.Laws.{AllAborted};
ghost use Rattle.supervision.specs.Calls.{view, given_tasks, child_refusal, context_refusal, link_count, seat_of};

use crate::{Refusal, Tree};
use lineage::births::STALE_LINKS;
use links::MOST_LINKS;
use nodes::MOST_NODES;

impl Tree {
    // How many nodes live.
    pub fn len(&self) -> usize
        ensures { result ≡ length (view self.now).nodes }
    {
        self.lineage.nodes.len()
    }

    // The serial that the next context gets.
    pub fn next_serial(&self) -> u64
        ensures { result ≡ (view self.now).next }
    {
        self.lineage.nodes.next_serial()
    }

    // Whether the context is open and the task holds it.
    pub fn is_open(&self, task: u64, context: u64) -> bool
        ensures { result ≡ open_for task context (view self.now) }
    {
        self.lineage
            .nodes
            .find(context)
            .is_some_and(|node| node.owner == Some(task))
    }

    // Whether the context's node is aborted; then all that lives under it is aborted too. A dead
    // node is not.
    pub fn is_aborted(&self, context: u64) -> bool
        ensures answer { result ≡ aborted_at context (view self.now) }
        ensures law { result ≡ true → AllAborted context (view self.now) }
    {
        self.lineage
            .nodes
            .find(context)
            .is_some_and(|node| node.aborted)
    }

    // Whether one more node may live.
    pub fn has_node(&self) -> bool
        ensures { result ≡ node_free (view self.now) }
    {
        self.lineage.nodes.len() < MOST_NODES
    }

    // Whether one more child may be linked below the context's node, once its dead links are
    // dropped where a birth would drop them. Nothing is dropped here.
    pub fn has_link(&self, context: u64) -> bool
        ensures { result ≡ link_free context (view self.now) }
    {
        let nodes = &self.lineage.nodes;
        let links = &self.lineage.links;
        match nodes.find(context) {
            Some(node) if node.stale >= STALE_LINKS => links.surviving(context, nodes) < MOST_LINKS,
            _ => links.len() < MOST_LINKS,
        }
    }

    // Refuses what needs the context, unless it is open and the task holds it.
    pub(crate) fn check_open(&self, task: u64, context: u64) -> Result<(), Refusal>
        ensures { result ≡ answered (context_refusal task context (view self.now)) tt }
    {
        if self.is_open(task, context) {
            Ok(())
        } else {
            Err(Refusal::NotOpen)
        }
    }

    // Refuses the task a context under this one, for the first reason that there is.
    pub fn check_child(&self, task: u64, context: u64) -> Result<(), Refusal>
        ensures { result ≡ answered (child_refusal task context (view self.now)) tt }
    {
        self.check_open(task, context)?;
        if !self.has_node() {
            return Err(Refusal::NoNode);
        }
        if self.is_aborted(context) || self.has_link(context) {
            Ok(())
        } else {
            Err(Refusal::NoLink)
        }
    }

    // How many links the context's node has, dead ones included.
    pub fn links(&self, task: u64, context: u64) -> Result<usize, Refusal>
        ensures { result ≡ answered (context_refusal task context (view self.now)) (link_count context (view self.now)) }
    {
        self.check_open(task, context)?;
        Ok(self.lineage.links.count(context))
    }

    // The node where the task is seated. The root task has none.
    pub fn node_of(&self, task: u64) -> Option<u64>
        ensures { result ≡ seat_of task (view self.now) }
    {
        self.lineage.nodes.seat_of(task).map(|node| node.serial)
    }

    // The tasks that the last cascade gave, in the order in which they are to be marked.
    pub fn marks(&self) -> &[u64]
        ensures { result.now ≡ given_tasks self.now }
    {
        self.walk.marks()
    }
}
