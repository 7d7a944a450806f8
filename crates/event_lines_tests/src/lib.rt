// What a user of the audit sees: lines told, and the first line that is no event.
#![tactic(auto)]

#[cfg(test)]
mod audited;
