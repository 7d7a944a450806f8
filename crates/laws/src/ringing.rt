// Alarms and the clock.
ghost use Rattle.laws.specs.Ringing.{EveryStoryRingsRight, ActsLeaveTheClock};

// Every alarm rings once and when it should, and nothing but the close of a round moves the clock.
fn stories_ring_right()
    ensures { EveryStoryRingsRight }
{}

// No act between the draining of a round and its close moves the clock.
fn acts_leave_the_clock()
    ensures { ActsLeaveTheClock }
{}
