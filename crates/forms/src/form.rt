// What a script says, form by form. Names are parts of the script's own bytes.

// A setting of the runner; times are nanoseconds.
#[derive(Clone, Copy)]
pub enum Setting {
    Cycle(u64),
    Start(u64),
    Timeout(u64),
    Catch,
}

// A step of a task's body.
#[derive(Clone, Copy)]
pub enum Step<'a> {
    Sleep(u64),
    Spawn(&'a [u8]),
    Wake(&'a [u8]),
    Abort(&'a [u8]),
    Stop(i32),
    Await,
    Done(i64),
    Fault(u32),
}

// A task's name, its steps in order, and the line that it stands on.
#[derive(Drop)]
pub struct TaskForm<'a> {
    pub name: &'a [u8],
    pub steps: Vec<Step<'a>>,
    pub line: usize,
}

// One line of a script.
#[derive(Drop)]
pub enum Form<'a> {
    Setting(Setting),
    Task(TaskForm<'a>),
}
