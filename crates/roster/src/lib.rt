// Which tasks hold the stop signal, which wait for it, and which asked for completion.
#![tactic(auto)]

mod calls;
pub mod row;

use keyed::table::Table;
use row::Row;

// The most tasks that have a row.
pub const MOST_TASKS: usize = 64;

// A row for each registered task, by ascending id. Ids rise, and the memory for all rows is reserved when it is made.
#[derive(Drop)]
pub struct Roster {
    rows: Table<Row, MOST_TASKS>,
}
