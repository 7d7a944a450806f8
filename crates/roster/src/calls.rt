// What the stopper does with its roster.
ghost use Rattle.std.specs.Prelude.{◌≡◌, ℕ, ◌+◌, ◌^◌, ◌<◌, ◌≤◌, Bool, length, IfOk};
ghost use Rattle.std.specs.Fn.{FnReturnsAt};
ghost use Rattle.reserved.specs.Closures.{Computes};
ghost use Rattle.roster.specs.declared.row.Row.{Row as Entry};
ghost use Rattle.roster.specs.Row.{most_tasks};
ghost use Rattle.roster.specs.Model.{view, nobody, entered, turned, departed, holder, some_open, called, Ascending};
ghost use Rattle.roster.specs.Closures.{KeepsTask};

use crate::Roster;
use crate::row::Row;
use keyed::record::Record;
use keyed::table::Table;
use reserved::buffer::Buffer;
use std::alloc::{AllocError, Global};

impl Roster {
    // No task yet, with the memory for MOST_TASKS rows.
    pub fn new(heap: Global) -> Result<Roster, AllocError>
        ensures made { IfOk result (λ s. view s ≡ nobody) }
    {
        let rows = Table::new(heap)?;
        Ok(Roster { rows })
    }

    // Registers a task, whose id is above those registered before.
    pub fn register(&mut self, task: u64)
        requires rises { (view self.old).next ≤ task }
        requires fits { task + 1 < 2 ^ 64 }
        requires few { length (view self.old).rows < most_tasks }
        ensures { view self.new ≡ entered task (view self.old) }
    {
        self.rows.push(Row::new(task));
    }

    // Whether the task holds a signal.
    pub fn holds(&self, task: u64) -> bool
        ensures { result ≡ holder task (view self.now).rows }
    {
        self.rows.find(task).is_some_and(|row| row.holds())
    }

    // Whether some task holds an open signal.
    pub fn some_open(&self) -> bool
        ensures { result ≡ some_open (view self.now).rows }
    {
        self.rows.as_slice().iter().any(Row::is_open)
    }

    // Lists the tasks whose rows pass the test, in place of what the buffer held, which has the capacity for all of them.
    pub fn list<P: Fn(&Row) -> bool, B: Buffer<u64>>(&self, passes: P, ids: &mut B)
        requires callable { P.IsAlwaysCallable passes }
        requires capacity { most_tasks ≤ B.capacity ids.old }
        ensures items { (test : Entry → Bool) → Computes (FnReturnsAt P.Fn passes) test → B.items ids.new ≡ called test (view self.now).rows }
        ensures capacity { B.capacity ids.new ≡ B.capacity ids.old }
        ensures ascending { Ascending (B.items ids.new) }
        ensures few { length (B.items ids.new) ≤ most_tasks }
    {
        ids.clear();
        for row in self.rows.as_slice() {
            if passes(row) {
                ids.push(row.key());
            }
        }
    }

    // A step at the task's row, if it has one.
    pub fn turn<F: FnOnce(Row) -> Row>(&mut self, task: u64, step: F)
        requires { F.IsAlwaysCallable step }
        ensures { (change : Entry → Entry) → Computes (F.post step) change → KeepsTask change → view self.new ≡ turned change task (view self.old) }
    {
        self.rows.turn(task, step);
    }

    // Strikes the task's row, if it has one.
    pub fn strike(&mut self, task: u64)
        ensures { view self.new ≡ departed task (view self.old) }
    {
        self.rows.remove(task);
    }
}
