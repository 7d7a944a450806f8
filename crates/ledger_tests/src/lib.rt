// What a user sees of a ledger: sizes refused, entries kept, lines printed, totals.
#![tactic(auto)]

#[cfg(test)]
mod memory;
#[cfg(test)]
mod printing;
#[cfg(test)]
mod totals;
