// A whole script.
use forms::form::TaskForm;

// A whole script: its settings, those left out at their defaults, and its tasks in order.
#[derive(Drop)]
pub struct Script<'a> {
    pub cycle_ns: u64,
    pub start_ns: u64,
    pub timeout_ns: Option<u64>,
    pub catch: bool,
    pub tasks: Vec<TaskForm<'a>>,
}
