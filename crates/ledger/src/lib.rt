// The ledger of a run: entries written one after another into memory that the caller gives.
#![tactic(auto)]

ghost use Rattle.std.specs.Prelude.{◌≤◌, vec_len};

pub mod memory;
pub mod totals;
pub mod writing;

use entry::Entry;

// The places that a ledger has at least and at most.
pub const LEAST_ENTRIES: usize = 1_024;

pub const MOST_ENTRIES: usize = 65_536;

// A vector with the count of what is written beside it, since the memory of a run is fixed: the caller gives it, it is never
// resized, and what is not written keeps its old content and is given back.
#[derive(Drop)]
pub struct Ledger {
    memory: Vec<Entry>,
    used: usize,
    ghost inside: { used ≤ vec_len memory },
    ghost enough: { 1024 ≤ vec_len memory },
    ghost bounded: { vec_len memory ≤ 65536 },
}
