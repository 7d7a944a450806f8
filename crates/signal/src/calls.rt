// What tasks and the executor do with the stopper.
ghost use Rattle.std.specs.Prelude.{◌≡◌, ◌+◌, ◌^◌, ◌<◌, ◌≤◌, not, ◌&&◌, [], length, is_some, IfOk, if◌then◌else◌, Some};
ghost use Rattle.oneshot.specs.Cell.{held as sent_value};
ghost use Rattle.reserved.specs.Held.{held};
ghost use Rattle.roster.specs.Row.{most_tasks, has_asked};
ghost use Rattle.roster.specs.Model.{called, Ascending};
ghost use Rattle.roster.specs.Model.{view as roll_of};
ghost use Rattle.signal.specs.Complete.{complete_with};
ghost use Rattle.signal.specs.Model.{view, woken_by, unstopped, complete, entered, given, signal_answer, awaiting, stopped_by, stop_wakes, completed_answer, asking, let_go, ended};
ghost use Rattle.signal.specs.Laws.{Keeps, StopWakes};
ghost use Rattle.signal.specs.Calls.{Makes, Settles};

use crate::{Refusal, Stopper};
use oneshot::OneShot;
use reserved::Reserved;
use roster::row::{Row, Signal};
use roster::{MOST_TASKS, Roster};
use std::alloc::{AllocError, Global};

// Sends completion if it comes now: there was a stop, no open signal is held, and it has not come before. Then it lists
// those who asked for it, and else nobody. It takes the parts of a stopper, which owes its fact only when a call is over.
fn settle(
    value: &OneShot<i32>,
    roster: &Roster,
    completion: &mut OneShot<()>,
    woken: &mut Reserved<u64, MOST_TASKS>,
)
    ensures completion { sent_value completion.new ≡ (if complete_with (sent_value value.now) (roll_of roster.now).rows then Some tt else sent_value completion.old) }
    ensures woken { held woken.new ≡ (if complete_with (sent_value value.now) (roll_of roster.now).rows && not (is_some (sent_value completion.old)) then called has_asked (roll_of roster.now).rows else []) }
    ensures ascending { Ascending (held woken.new) }
{
    if !completion.is_sent() && value.is_sent() && !roster.some_open() {
        let _ = completion.send(());
        roster.list(Row::has_asked, woken);
    } else {
        woken.clear();
    }
}

impl Stopper {
    // Running, with no task yet and the memory for MOST_TASKS of them.
    pub fn new(heap: Global) -> Result<Stopper, AllocError>
        ensures made { IfOk result (λ s. (view s ≡ unstopped) × (woken_by s ≡ [])) }
    {
        let woken = Reserved::new(heap)?;
        let roster = Roster::new(heap)?;
        Ok(Stopper {
            value: OneShot::new(),
            completion: OneShot::new(),
            roster,
            woken,
        })
    }

    // Registers a task, whose id is above those registered before.
    pub fn register(&mut self, task: u64)
        requires rises { (view self.old).roll.next ≤ task }
        requires fits { task + 1 < 2 ^ 64 }
        requires few { length (view self.old).roll.rows < most_tasks }
        ensures { Makes (entered task) self.old self.new }
    {
        self.roster.register(task);
    }

    // Whether a stop has come and no task holds an open signal.
    fn is_complete(&self) -> bool
        ensures { result ≡ complete (view self.now) }
    {
        self.completion.is_sent()
    }

    // Gives the task a signal, unless it holds one: open before the stop, closed after it.
    pub fn stopped(&mut self, task: u64)
        ensures { Makes (given task) self.old self.new }
    {
        let signal = if self.value.is_sent() {
            Signal::Closed
        } else {
            Signal::Open
        };
        self.roster.turn(task, |row| row.take(signal));
    }

    // The first stop value, or none yet, and then the task waits for it. Refused to a task that holds no signal.
    pub fn signal(&mut self, task: u64) -> Result<Option<i32>, Refusal>
        ensures answer { result ≡ signal_answer task (view self.old) }
        ensures state { Makes (awaiting task) self.old self.new }
    {
        if !self.roster.holds(task) {
            return Err(Refusal::NoSignal);
        }
        let value = self.value.get().copied();
        if value.is_none() {
            self.roster.turn(task, Row::wait);
        }
        Ok(value)
    }

    // Stops. The first stop wakes those waiting, and if no open signal is held completion comes with it,
    // which wakes nobody, since nobody could ask for it before. A later stop does nothing.
    pub fn stop(&mut self, value: i32)
        ensures state { view self.new ≡ stopped_by value (view self.old) }
        ensures woken { woken_by self.new ≡ stop_wakes (view self.old) }
        ensures keeps { Keeps (view self.old) (view self.new) }
        ensures wakes { StopWakes (view self.old) (woken_by self.new) }
    {
        if self.value.send(value).is_ok() {
            settle(
                &self.value,
                &self.roster,
                &mut self.completion,
                &mut self.woken,
            );
            self.roster.list(Row::is_waiting, &mut self.woken);
        } else {
            self.woken.clear();
        }
    }

    // Whether all is complete; if not, the task has asked for it. Refused before the stop.
    pub fn completed(&mut self, task: u64) -> Result<bool, Refusal>
        ensures answer { result ≡ completed_answer (view self.old) }
        ensures state { Makes (asking task) self.old self.new }
    {
        if !self.value.is_sent() {
            return Err(Refusal::NotStopped);
        }
        let complete = self.is_complete();
        if !complete {
            self.roster.turn(task, Row::ask);
        }
        Ok(complete)
    }

    // Ends the task's signal, if it holds one. With the last open signal after the stop completion comes.
    pub fn let_go(&mut self, task: u64)
        ensures { Settles (let_go task) self.old self.new }
    {
        self.roster.turn(task, Row::let_go);
        settle(
            &self.value,
            &self.roster,
            &mut self.completion,
            &mut self.woken,
        );
    }

    // The task ends: its signal goes, and it is woken no more. With the last open signal after the stop completion comes.
    pub fn end(&mut self, task: u64)
        ensures { Settles (ended task) self.old self.new }
    {
        self.roster.strike(task);
        settle(
            &self.value,
            &self.roster,
            &mut self.completion,
            &mut self.woken,
        );
    }

    // Whom the last stop, letting go or end of a task woke, by ascending id.
    pub fn woken(&self) -> &[u64]
        ensures value { result.now ≡ woken_by self.now }
        ensures few { length result.now ≤ most_tasks }
    {
        self.woken.as_slice()
    }
}
