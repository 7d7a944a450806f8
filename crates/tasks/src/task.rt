// One registered task.
ghost use Rattle.std.specs.Prelude.{◌≡◌};
ghost use Rattle.deterministic.specs.Model.{new_task, marked, pended};
ghost use Rattle.tasks.specs.Label.{label_bytes};
ghost use Rattle.tasks.specs.Task.{task_view};

use crate::label::Label;
use keyed::record::Record;

// A task that has not ended.
#[derive(Clone, Copy)]
pub struct Task {
    pub id: u64,
    pub label: Label,
    // Its node in the supervision tree; the root has none.
    pub node: Option<u64>,
    // Whether it is marked aborted.
    pub marked: bool,
    // Whether its body has come to pending before.
    pub pended: bool,
}

impl Record for Task {
    ghost key = { λ task. task.id };

    fn key(&self) -> u64 {
        self.id
    }
}

impl Task {
    // A task that is neither marked nor polled yet.
    pub(crate) fn new(id: u64, label: Label, node: Option<u64>) -> Task
        ensures { task_view result ≡ new_task id (label_bytes label) node }
    {
        Task {
            id,
            label,
            node,
            marked: false,
            pended: false,
        }
    }

    // The task, marked aborted.
    pub(crate) fn mark(self) -> Task
        ensures view { task_view result ≡ marked (task_view self) }
        ensures label { result.label ≡ self.label }
    {
        Task {
            marked: true,
            ..self
        }
    }

    // The task, whose body has come to pending.
    pub(crate) fn pend(self) -> Task
        ensures view { task_view result ≡ pended (task_view self) }
        ensures label { result.label ≡ self.label }
    {
        Task {
            pended: true,
            ..self
        }
    }
}
