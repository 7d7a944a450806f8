// The supervision tree: which context and task stands below which, and what an abort reaches.
#![tactic(auto)]

ghost use Rattle.lineage.specs.Family.{family_of};
ghost use Rattle.supervision.specs.Sound.{Rooted, Shielded, Linked, Honest, Past, Kept, Single};

use lineage::Lineage;
use lineage::walk::Walk;

pub mod asks;
pub mod calls;
pub mod ends;

// Why a call is refused.
#[derive(Clone, Copy, Debug, PartialEq, Eq)]
pub enum Refusal {
    // The context is not open, or another task's.
    NotOpen,
    // No node is free.
    NoNode,
    // A link is needed, and none is free even after dead ones would be dropped.
    NoLink,
}

// The nodes and links of a tree, and the memory of its cascades.
#[derive(Drop)]
pub struct Tree {
    lineage: Lineage,
    walk: Walk,
    // The parent of a living node lives.
    ghost rooted: { Rooted (family_of lineage) },
    // Every living child of an aborted node is aborted.
    ghost shielded: { Shielded (family_of lineage) },
    // Every living child of a node that is not aborted is linked there.
    ghost linked: { Linked (family_of lineage) },
    // A link leads to a child of its parent, or to a dead node.
    ghost honest: { Honest (family_of lineage) },
    // A link leads to a node that was born.
    ghost past: { Past (family_of lineage) },
    // Whatever lives is kept alive by an open context, a task that has not ended, or a living child.
    ghost kept: { Kept (family_of lineage) },
    // No task is seated at two nodes.
    ghost single: { Single (family_of lineage) },
}
