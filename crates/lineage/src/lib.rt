// Births, deaths and aborts over the nodes and links of a supervision tree.
#![tactic(auto)]

use links::Links;
use nodes::Nodes;

pub mod births;
pub mod deaths;
pub mod steps;
pub mod walk;

// The nodes that live, and the links between them.
#[derive(Drop)]
pub struct Lineage {
    pub nodes: Nodes,
    pub links: Links,
}
