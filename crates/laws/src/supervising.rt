// Supervision.
ghost use Rattle.laws.specs.Supervised.{EveryStoryIsSupervised, EveryMomentIsTrulyTold, EveryRoundComes};

// No body is called of a task that was marked or has ended, nor of one below a task that has ended; and what is told of the tree
// is so at the end.
fn stories_are_supervised()
    ensures { EveryStoryIsSupervised }
{}

// What is told of the tree is so at every moment.
fn moments_are_truly_told()
    ensures { EveryMomentIsTrulyTold }
{}

// Every round of a story begins at such a moment.
fn rounds_come()
    ensures { EveryRoundComes }
{}
