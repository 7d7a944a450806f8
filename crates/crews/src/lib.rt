// The crews of the bench.
#![tactic(auto)]

ghost use Rattle.crews.specs.Behaviours.{Behaviours};
ghost use Rattle.crews.specs.Duties.{Duties};
ghost use Rattle.crews.specs.Rehearsals.{Rehearsals};

// The worked rehearsals come out as they should.
pub fn rehearsals()
    ensures { Rehearsals }
{}

// So do those in which tasks are aborted, fault, stop, are woken after their end, or meet the clock's limit.
pub fn behaviours()
    ensures { Behaviours }
{}

// The crew does its part: names, going on after a wait, letting go, the calls of each step, the first refusal, and the codes of faults.
pub fn duties()
    ensures { Duties }
{}
