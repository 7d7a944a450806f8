// What alarms do, by example.
#![tactic(auto)]

ghost use Rattle.std.specs.Prelude.{◌≡◌};
ghost use Rattle.alarms.specs.Model.{view};

#[cfg(test)]
mod tests {
    use alarms::{Alarms, MOST_ALARMS};
    use std::test::Fail;

    // The task whose alarm rings, or 0 where none does.
    fn rung(alarms: &mut Alarms, clock: u64) -> u64
        ensures { (view alarms.new).next ≡ (view alarms.old).next }
    {
        alarms.ring(clock).map_or(0, |alarm| alarm.task)
    }

    #[test]
    fn equal_times_ring_in_arming_order(rt: HostRuntime) -> Result<(), Fail> {
        let mut alarms = Alarms::new(rt.alloc())?;
        assert!(rt;
            alarms.arm(7, 50).is_ok() && alarms.arm(8, 20).is_ok() && alarms.arm(9, 50).is_ok()
        );
        assert_eq!(rt; alarms.earliest(), Some(20));
        assert_eq!(rt; (rung(&mut alarms, 49), rung(&mut alarms, 49)), (8, 0));
        assert_eq!(rt; (rung(&mut alarms, 50), rung(&mut alarms, 50)), (7, 9));
        assert_eq!(rt; alarms.earliest(), None);
        Ok(())
    }

    #[test]
    fn the_129th_alarm_is_refused_until_one_rings(rt: HostRuntime) -> Result<(), Fail> {
        let mut alarms = Alarms::new(rt.alloc())?;
        for task in 0..129 {
            assert_eq!(rt; alarms.arm(task, 5).is_ok(), task < 128);
        }
        assert_eq!(rt; alarms.count(), MOST_ALARMS);
        assert!(rt;
            alarms.stands(127, 127, 5) && !alarms.stands(127, 126, 5) && !alarms.stands(128, 128, 5)
        );
        assert_eq!(rt; rung(&mut alarms, 9), 0);
        assert!(rt; !alarms.stands(0, 0, 5) && alarms.count() == 127);
        assert!(rt; alarms.arm(128, 5).is_ok() && alarms.stands(128, 128, 5));
        Ok(())
    }
}
