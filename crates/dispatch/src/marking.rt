// How tasks are marked aborted, and noted as pended.
// The counts are lent and no part of the dispatcher: a spawn borrows them alone while the dispatcher queues its task.
ghost use Rattle.std.specs.Prelude.{◌≡◌, ◌+◌, ◌≤◌, false};
ghost use Rattle.tasks.specs.Task.{task_view};
ghost use Rattle.tasks.specs.Model as tasks;
ghost use Rattle.deterministic.specs.Model.{with_changed, marked};
ghost use Rattle.deterministic.specs.Moves.{move, moves, after_doing};
ghost use Rattle.deterministic.specs.Moves as moved;
ghost use Rattle.deterministic.specs.Calls.{marking_task, marking};
ghost use Rattle.deterministic.specs.Ending.{markings, others};
ghost use Rattle.dispatch.specs.Seen.{Leads, LeadsCounted, HasRoom, MarksFit, SpendsByMarks, free_entries, waiting_ids};

use crate::Dispatcher;
use deterministic::counts::Counts;
use entry::Entry;
use reasons::cause::Cause;
use tasks::task::Task;

impl Dispatcher {
    // Notes that the body of the task has come to pending.
    pub fn pend(&mut self, id: u64)
        ensures state { Leads self.old self.new (move (moved.pend id)) }
    {
        self.tasks.pend(id);
    }

    // Marks a registered task that is not marked yet: it counts as running no more, and it is woken if it has pended before,
    // so that it is dealt and ends.
    fn mark_task(&mut self, task: Task, counts: &mut Counts)
        requires new { task.marked ≡ false }
        requires room { HasRoom self.old 2 1 }
        ensures state { LeadsCounted self.old counts.old self.new counts.new (moves (marking_task (task_view task))) }
        ensures left { free_entries self.old ≤ free_entries self.new + 2 }
        ensures waiting { waiting_ids self.new ≤ waiting_ids self.old + 1 }
        ensures registry { tasks.view self.new.tasks ≡ with_changed marked task.id (tasks.view self.old.tasks) }
    {
        self.tasks.mark(task.id);
        counts.running = counts.running.saturating_sub(1);
        self.write(Entry::Mark(task.id));
        if task.pended {
            self.queue(task.id, Entry::Wake(task.id, Cause::Abort));
        }
    }

    // Marks a task aborted. Nothing happens to one that has ended or is marked already.
    pub fn mark(&mut self, id: u64, counts: &mut Counts)
        requires fit { MarksFit self.old }
        ensures state { LeadsCounted self.old counts.old self.new counts.new (after_doing (marking id)) }
        ensures fit { MarksFit self.new }
        ensures spent { SpendsByMarks self.old self.new }
    {
        if let Some(task) = self.tasks.find(id) {
            if !task.marked {
                self.mark_task(task, counts);
            }
        }
    }

    // Marks each of these tasks in this order, but not the one that is spared.
    pub fn mark_all(&mut self, ids: &[u64], spared: u64, counts: &mut Counts)
        requires fit { MarksFit self.old }
        ensures state { LeadsCounted self.old counts.old self.new counts.new (after_doing (markings (others spared ids.now))) }
        ensures fit { MarksFit self.new }
        ensures spent { SpendsByMarks self.old self.new }
    {
        for id in ids {
            if *id == spared {
                continue;
            }
            self.mark(*id, counts);
        }
    }
}
