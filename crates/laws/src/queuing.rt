// Queues, ledger and totals.
ghost use Rattle.laws.specs.Queuing.{EveryStoryQueuesRight, EveryStoryWritesRight};

// Every queuing is dealt once, in the next round, or is undealt at the end.
fn stories_queue_right()
    ensures { EveryStoryQueuesRight }
{}

// The ledger tells what happened, round by round, and the totals are read off it.
fn stories_write_right()
    ensures { EveryStoryWritesRight }
{}
