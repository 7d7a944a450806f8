// The audit of a rehearsal: a digest of its events, by which two rehearsals are compared.
#![tactic(auto)]

mod auditor;
mod hasher;

pub use auditor::{Auditor, Digest};
pub use hasher::AuditHasher;
