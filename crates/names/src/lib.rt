// The names of a script's tasks: no name is given twice, and each name that is used is a task's.
#![tactic(auto)]

ghost use Rattle.std.specs.Prelude.{◌≡◌, [], map};
ghost use Rattle.forms.specs.Views.{act_of, task_of};
ghost use Rattle.grammar.specs.Reading.{is_among, is_known, all_known, is_named, misnamed, names_of};
ghost use Rattle.names.specs.Names.{names_in};

use forms::form::{Step, TaskForm};

// Whether a task has the name.
pub fn is_among(name: &[u8], tasks: &[TaskForm<'_>]) -> bool
    ensures { result ≡ is_among name.now (names_in tasks.now) }
{
    tasks.iter().any(|task| name == task.name)
}

// Whether the name that the step uses, if it uses one, is a task's.
fn is_known(step: Step<'_>, tasks: &[TaskForm<'_>]) -> bool
    ensures { result ≡ is_known (names_in tasks.now) (act_of step.entry) }
{
    match step {
        Step::Spawn(name) | Step::Wake(name) | Step::Abort(name) => is_among(name, tasks),
        _ => true,
    }
}

// Whether each name that the steps use is a task's.
fn all_known(steps: &[Step<'_>], tasks: &[TaskForm<'_>]) -> bool
    ensures { result ≡ all_known (names_in tasks.now) (map act_of steps.now) }
{
    steps.iter().all(|step| is_known(*step, tasks))
}

// Whether the task's name is new after the earlier tasks', and each name that it uses is a task's.
fn is_named(task: &TaskForm<'_>, earlier: &[TaskForm<'_>], tasks: &[TaskForm<'_>]) -> bool
    ensures { result ≡ is_named (names_in tasks.now) (names_in earlier.now) (task_of task.now) }
{
    !is_among(task.name, earlier) && all_known(task.steps.as_slice(), tasks)
}

// The line of the first task whose name is not new or that uses a name that no task has.
pub fn misnamed_line(tasks: &[TaskForm<'_>]) -> Option<usize>
    ensures { result ≡ misnamed (names_in tasks.now) [] (map task_of tasks.now) }
{
    // The place is wanted: it says which tasks come before, which a search by a test of one task does not see.
    for (i, task) in tasks.iter().enumerate() {
        if !is_named(task, &tasks[..i], tasks) {
            return Some(task.line);
        }
    }
    None
}
