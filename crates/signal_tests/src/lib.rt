// What the stop signal and its cells do, by example.
#![tactic(auto)]

#[cfg(test)]
mod tests {
    use oneshot::OneShot;
    use reserved::Reserved;
    use roster::row::{Row, Signal};
    use roster::{MOST_TASKS, Roster};
    use signal::{Refusal, Stopper};
    use std::alloc::{AllocError, Global};
    use std::test::Fail;

    // A stopper with the tasks 1, 2 and 3.
    fn three_tasks(heap: Global) -> Result<Stopper, AllocError> {
        let mut stopper = Stopper::new(heap)?;
        stopper.register(1);
        stopper.register(2);
        stopper.register(3);
        Ok(stopper)
    }

    #[test]
    fn the_first_value_sent_stays(rt: HostRuntime) {
        let mut fault: OneShot<u32> = OneShot::new();
        assert!(rt; fault.send(7).is_ok());
        assert_eq!(rt; fault.send(8), Err(8));
        assert_eq!(rt; fault.get(), Some(&7));
        assert!(rt; fault.is_sent());
    }

    #[test]
    fn the_first_stop_value_stays_and_is_answered_again(rt: HostRuntime) -> Result<(), Fail> {
        let mut stopper = three_tasks(rt.alloc())?;
        assert_eq!(rt; stopper.signal(2), Err(Refusal::NoSignal));
        assert_eq!(rt; stopper.completed(2), Err(Refusal::NotStopped));
        stopper.stopped(2);
        assert_eq!(rt; stopper.signal(2), Ok(None));
        stopper.stop(-4);
        assert_eq!(rt; stopper.woken(), [2].as_slice());
        stopper.stop(9);
        assert!(rt; stopper.woken().is_empty());
        assert_eq!(rt; stopper.signal(2), Ok(Some(-4)));
        assert_eq!(rt; stopper.signal(2), Ok(Some(-4)));
        Ok(())
    }

    #[test]
    fn a_holder_that_never_asked_is_not_woken(rt: HostRuntime) -> Result<(), Fail> {
        let mut stopper = three_tasks(rt.alloc())?;
        stopper.stopped(3);
        stopper.stopped(2);
        stopper.stopped(1);
        assert_eq!(rt; stopper.signal(3), Ok(None));
        assert_eq!(rt; stopper.signal(1), Ok(None));
        stopper.stop(0);
        assert_eq!(rt; stopper.woken(), [1, 3].as_slice());
        Ok(())
    }

    #[test]
    fn letting_the_last_open_signal_go_completes_once(rt: HostRuntime) -> Result<(), Fail> {
        let mut stopper = three_tasks(rt.alloc())?;
        stopper.stopped(1);
        stopper.stop(0);
        stopper.stopped(2);
        assert_eq!(rt; stopper.completed(3), Ok(false));
        assert_eq!(rt; stopper.completed(1), Ok(false));
        stopper.let_go(1);
        assert_eq!(rt; stopper.woken(), [1, 3].as_slice());
        assert_eq!(rt; stopper.completed(2), Ok(true));
        stopper.let_go(1);
        assert!(rt; stopper.woken().is_empty());
        assert_eq!(rt; stopper.completed(2), Ok(true));
        Ok(())
    }

    #[test]
    fn a_task_that_ends_completes_without_being_woken(rt: HostRuntime) -> Result<(), Fail> {
        let mut stopper = three_tasks(rt.alloc())?;
        stopper.stopped(1);
        stopper.stop(0);
        assert_eq!(rt; stopper.completed(1), Ok(false));
        assert_eq!(rt; stopper.completed(2), Ok(false));
        stopper.end(1);
        assert_eq!(rt; stopper.woken(), [2].as_slice());
        assert_eq!(rt; stopper.completed(3), Ok(true));
        Ok(())
    }

    // A roster of the tasks 1, 2 and 3: the first two hold signals, and the last two asked for completion.
    fn roster_of_three(heap: Global) -> Result<Roster, AllocError> {
        let mut roster = Roster::new(heap)?;
        roster.register(1);
        roster.register(2);
        roster.register(3);
        roster.turn(1, |row| row.take(Signal::Open));
        roster.turn(2, |row| row.take(Signal::Closed));
        roster.turn(2, Row::ask);
        roster.turn(3, Row::ask);
        Ok(roster)
    }

    #[test]
    fn a_roster_lists_into_a_vector_of_the_least_capacity(rt: HostRuntime) -> Result<(), Fail> {
        let roster = roster_of_three(rt.alloc())?;
        let mut ids = Vec::with_capacity(rt.alloc(), MOST_TASKS)?;
        roster.list(Row::holds, &mut ids);
        assert_eq!(rt; ids.as_slice(), [1, 2].as_slice());
        roster.list(Row::has_asked, &mut ids);
        assert_eq!(rt; ids.as_slice(), [2, 3].as_slice());
        assert_eq!(rt; ids.capacity(), MOST_TASKS);
        Ok(())
    }

    #[test]
    fn a_roster_lists_into_a_reserved_list(rt: HostRuntime) -> Result<(), Fail> {
        let roster = roster_of_three(rt.alloc())?;
        let mut ids = Reserved::<u64, MOST_TASKS>::new(rt.alloc())?;
        roster.list(Row::holds, &mut ids);
        assert_eq!(rt; ids.as_slice(), [1, 2].as_slice());
        roster.list(Row::is_open, &mut ids);
        assert_eq!(rt; ids.as_slice(), [1].as_slice());
        Ok(())
    }
}
