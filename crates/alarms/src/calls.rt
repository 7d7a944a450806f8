// What the executor does with alarms.
ghost use Rattle.std.specs.Prelude.{◌≡◌, ◌+◌, ◌^◌, ◌<◌, ◌≤◌, ◌∷◌, ◌++◌, length, take, drop, IfOk};
ghost use Rattle.alarms.specs.Model.{view, silent, placed, armed, arm_answer, earliest, first_due, rung, found, is_for};
ghost use Rattle.alarms.specs.Laws.{Arms, Earliest, Rings, WholeRinging, Finds};

use crate::{Alarm, Alarms, Full, MOST_ALARMS};
use reserved::Reserved;
use std::alloc::{AllocError, Global};

impl Alarms {
    // No alarm yet, with the memory for MOST_ALARMS of them.
    pub fn new(heap: Global) -> Result<Alarms, AllocError>
        ensures made { IfOk result (λ s. view s ≡ silent) }
    {
        let standing = Reserved::new(heap)?;
        Ok(Alarms { standing, next: 0 })
    }

    // How many alarms stand.
    pub fn count(&self) -> usize
        ensures { result ≡ length (view self.now).alarms }
    {
        self.standing.len()
    }

    // The place behind every alarm that the new one does not overtake: at equal times the other was armed first.
    fn place(&self, alarm: Alarm) -> usize
        ensures within { result ≤ length (view self.now).alarms }
        ensures value { take result (view self.now).alarms ++ alarm ∷ drop result (view self.now).alarms ≡ placed alarm (view self.now).alarms }
    {
        self.standing
            .as_slice()
            .partition_point(|other| other.time <= alarm.time)
    }

    // Arms an alarm for a task at a time and answers its serial, or refuses while MOST_ALARMS stand.
    pub fn arm(&mut self, task: u64, time: u64) -> Result<u64, Full>
        requires serials { (view self.old).next + 1 < 2 ^ 64 }
        ensures answer { result ≡ arm_answer (view self.old) }
        ensures state { view self.new ≡ armed task time (view self.old) }
        ensures serials { Arms (view self.old) (view self.new) result }
    {
        if self.count() >= MOST_ALARMS {
            return Err(Full);
        }
        let serial = self.next;
        let alarm = Alarm { time, serial, task };
        let at = self.place(alarm);
        self.standing.insert(at, alarm);
        self.next = serial + 1;
        Ok(serial)
    }

    // The earliest time at which an alarm stands.
    pub fn earliest(&self) -> Option<u64>
        ensures answer { result ≡ earliest (view self.now).alarms }
        ensures least { Earliest (view self.now).alarms result }
    {
        self.standing.as_slice().first().map(|alarm| alarm.time)
    }

    // Takes the next alarm to ring, if the clock has reached it: called until it answers none, it rings all that are due.
    pub fn ring(&mut self, clock: u64) -> Option<Alarm>
        ensures answer { result ≡ first_due clock (view self.old).alarms }
        ensures state { view self.new ≡ rung clock (view self.old) }
        ensures first { Rings clock (view self.old).alarms (view self.new).alarms result }
        ensures whole { WholeRinging clock (view self.old).alarms }
    {
        match self.earliest() {
            Some(time) if time <= clock => Some(self.standing.remove(0)),
            _ => None,
        }
    }

    // The alarm with this serial, if it stands.
    pub fn find(&self, serial: u64) -> Option<Alarm>
        ensures answer { result ≡ found serial (view self.now).alarms }
        ensures stands { Finds serial (view self.now).alarms result }
    {
        self.standing
            .as_slice()
            .iter()
            .find(|alarm| alarm.serial == serial)
            .copied()
    }

    // Whether the serial is that of a standing alarm of this task for this time.
    pub fn stands(&self, serial: u64, task: u64, time: u64) -> bool
        ensures { result ≡ is_for task time (found serial (view self.now).alarms) }
    {
        self.find(serial)
            .is_some_and(|alarm| alarm.task == task && alarm.time == time)
    }
}
