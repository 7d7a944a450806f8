// What is asked of the tasks.
ghost use Rattle.std.specs.Prelude.{◌≡◌, ◌<◌, ◌≤◌, length, IfSome};
ghost use Rattle.std.specs.Option.{option_map};
ghost use Rattle.keyed.specs.Keyed.{find};
ghost use Rattle.deterministic.specs.Model.{id_of};
ghost use Rattle.tasks.specs.Limits.{most_tasks};
ghost use Rattle.tasks.specs.Task.{task_view};
ghost use Rattle.tasks.specs.Model.{view};

use crate::Tasks;
use crate::task::Task;

impl Tasks {
    // How many tasks are registered.
    pub fn len(&self) -> usize
        ensures count { result ≡ length (view self.now).tasks }
        ensures few { result ≤ most_tasks }
    {
        self.tasks.len()
    }

    // The id that is given out next.
    pub fn next_id(&self) -> u64
        ensures { result ≡ (view self.now).next }
    {
        self.tasks.next()
    }

    // The task of this id, if it is registered.
    pub fn find(&self, id: u64) -> Option<Task>
        ensures task { option_map task_view result ≡ find id_of id (view self.now).tasks }
        ensures given { IfSome result (λ t. (t.id ≡ id) × (id < (view self.now).next)) }
    {
        self.tasks.find(id)
    }
}
