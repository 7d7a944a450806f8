// How the tasks are made and changed.
ghost use Rattle.std.specs.Prelude.{◌≡◌, ◌+◌, ◌^◌, ◌<◌, length, IfOk};
ghost use Rattle.deterministic.specs.Model.{with_task, with_changed, without_task, marked, pended};
ghost use Rattle.tasks.specs.Limits.{most_tasks};
ghost use Rattle.tasks.specs.Label.{label_bytes};
ghost use Rattle.tasks.specs.Model.{view, nobody};

use crate::Tasks;
use crate::label::Label;
use crate::task::Task;
use keyed::table::Table;
use std::alloc::{AllocError, Global};

impl Tasks {
    // No task yet, with the memory for MOST_TASKS.
    pub fn new(heap: Global) -> Result<Tasks, AllocError>
        ensures made { IfOk result (λ t. view t ≡ nobody) }
    {
        let tasks = Table::new(heap)?;
        Ok(Tasks { tasks })
    }

    // Registers a task under the next id, and answers that id.
    pub fn add(&mut self, label: Label, node: Option<u64>) -> u64
        requires room { length (view self.old).tasks < most_tasks }
        requires fits { (view self.old).next + 1 < 2 ^ 64 }
        ensures id { result ≡ (view self.old).next }
        ensures after { view self.new ≡ with_task (view self.old).next (label_bytes label) node (view self.old) }
    {
        let id = self.tasks.next();
        self.tasks.push(Task::new(id, label, node));
        id
    }

    // Marks the task of this id aborted, if it is registered.
    pub fn mark(&mut self, id: u64)
        ensures { view self.new ≡ with_changed marked id (view self.old) }
    {
        self.tasks.change(id, Task::mark);
    }

    // Notes that the body of the task of this id has come to pending, if it is registered.
    pub fn pend(&mut self, id: u64)
        ensures { view self.new ≡ with_changed pended id (view self.old) }
    {
        self.tasks.change(id, Task::pend);
    }

    // Strikes the task of this id, if it is registered. Its id is not given out again.
    pub fn remove(&mut self, id: u64)
        ensures { view self.new ≡ without_task id (view self.old) }
    {
        self.tasks.remove(id);
    }
}
