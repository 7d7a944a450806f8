// How the nodes are made and changed.
ghost use Rattle.std.specs.Prelude.{◌≡◌, ◌+◌, ◌^◌, ◌<◌, [], ◌∷◌, ◌++◌, map, length, IfOk, None};
ghost use Rattle.keyed.specs.Keyed.{change, without};
ghost use Rattle.nodes.specs.Node.{serial_of, fresh, with_owner, bereaved, released, vacated, taken};
ghost use Rattle.nodes.specs.Living.{living, next_serial};

use crate::{Node, Nodes};
use keyed::table::Table;
use std::alloc::{AllocError, Global};

// The node, its context closed if the task holds it.
fn released(node: Node, task: u64) -> Node
    ensures { result ≡ released task node }
{
    if node.owner == Some(task) {
        Node {
            owner: None,
            ..node
        }
    } else {
        node
    }
}

// The node, left by the task if it is seated there.
fn vacated(node: Node, task: u64) -> Node
    ensures { result ≡ vacated task node }
{
    if node.task == Some(task) {
        Node { task: None, ..node }
    } else {
        node
    }
}

// What each call leaves of the nodes and of the next serial are two clauses, since callers use the one without the other. `release_all`
// and `vacate` differ in the step alone, which each names.
impl Nodes {
    // No node yet. Nothing is allocated after this.
    pub fn new(heap: Global) -> Result<Nodes, AllocError>
        ensures { IfOk result (λ t. (living t ≡ []) × (next_serial t ≡ 0)) }
    {
        let table = Table::new(heap)?;
        Ok(Nodes { table })
    }

    // A new node, whose context is open and held by the owner; gives its serial.
    pub fn add(&mut self, parent: Option<u64>, aborted: bool, owner: u64) -> u64
        requires room { length (living self.old) < 128 }
        requires fits { next_serial self.old + 1 < 2 ^ 64 }
        ensures serial { result ≡ next_serial self.old }
        ensures nodes { living self.new ≡ living self.old ++ fresh (next_serial self.old) parent aborted owner ∷ [] }
        ensures next { next_serial self.new ≡ next_serial self.old + 1 }
    {
        let serial = self.table.next();
        self.table.push(Node {
            serial,
            parent,
            aborted,
            owner: Some(owner),
            task: None,
            stale: 0,
        });
        serial
    }

    // The node takes the place of the one that has its serial.
    pub fn put(&mut self, node: Node)
        ensures nodes { living self.new ≡ change serial_of (λ _. node) (serial_of node) (living self.old) }
        ensures next { next_serial self.new ≡ next_serial self.old }
    {
        self.table.put(node);
    }

    // The node with this serial lives no more.
    pub fn remove(&mut self, serial: u64)
        ensures nodes { living self.new ≡ without serial_of serial (living self.old) }
        ensures next { next_serial self.new ≡ next_serial self.old }
    {
        self.table.remove(serial);
    }

    // Closes every context that the task holds.
    pub fn release_all(&mut self, task: u64)
        ensures nodes { living self.new ≡ map (released task) (living self.old) }
        ensures next { next_serial self.new ≡ next_serial self.old }
    {
        self.table.change_all(|node| released(node, task));
    }

    // Closes the context of the node.
    pub fn release(&mut self, serial: u64)
        ensures nodes { living self.new ≡ change serial_of (with_owner None) serial (living self.old) }
        ensures next { next_serial self.new ≡ next_serial self.old }
    {
        self.table.change(
            serial,
            |node| Node {
                owner: None,
                ..node
            },
        );
    }

    // Spends the context of the node, and seats the task there.
    pub fn seat(&mut self, serial: u64, task: u64)
        ensures nodes { living self.new ≡ change serial_of (taken task) serial (living self.old) }
        ensures next { next_serial self.new ≡ next_serial self.old }
    {
        self.table.change(
            serial,
            |node| Node {
                owner: None,
                task: Some(task),
                ..node
            },
        );
    }

    // The node, if it lives, counts one more dead child.
    pub fn bereave(&mut self, serial: u64)
        ensures nodes { living self.new ≡ change serial_of bereaved serial (living self.old) }
        ensures next { next_serial self.new ≡ next_serial self.old }
    {
        self.table.change(
            serial,
            |node| Node {
                stale: node.stale.saturating_add(1),
                ..node
            },
        );
    }

    // The task leaves its node.
    pub fn vacate(&mut self, task: u64)
        ensures nodes { living self.new ≡ map (vacated task) (living self.old) }
        ensures next { next_serial self.new ≡ next_serial self.old }
    {
        self.table.change_all(|node| vacated(node, task));
    }
}
