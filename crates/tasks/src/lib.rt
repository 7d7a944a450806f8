// The registered tasks of an executor.
#![tactic(auto)]

mod edits;
pub mod label;
mod reads;
pub mod task;

use keyed::table::Table;
use task::Task;

// The most tasks that are registered at once.
pub const MOST_TASKS: usize = 64;

// The registered tasks by ascending id. Each id below the next one was given out.
// The memory for all tasks is reserved when they are made.
#[derive(Drop)]
pub struct Tasks {
    tasks: Table<Task, MOST_TASKS>,
}
