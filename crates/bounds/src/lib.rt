// That the bounds of an executor are kept: the statements stand in specs/, the proofs in proofs/.
#![tactic(auto)]

ghost use Rattle.bounds.specs.Kept.{SoundIsSmall, CalmIsSmall, CallsKeep, TurnsKeep, EndsKeep, OutcomesKeep, RoundsKeep, ClosesKeep, StartsKeep};

// The numbers of a sound executor are small.
fn numbers_are_small()
    ensures { SoundIsSmall }
{}

// The waiting ids of a calm executor are few.
fn waiting_is_small()
    ensures { CalmIsSmall }
{}

// Every call of a body keeps the bounds.
fn calls_keep_the_bounds()
    ensures { CallsKeep }
{}

// All the calls of a body keep the bounds.
fn turns_keep_the_bounds()
    ensures { TurnsKeep }
{}

// The end of a task keeps the bounds.
fn ends_keep_the_bounds()
    ensures { EndsKeep }
{}

// What follows the call of a body keeps the bounds.
fn outcomes_keep_the_bounds()
    ensures { OutcomesKeep }
{}

// The steps of a round up to its close keep the bounds.
fn rounds_keep_the_bounds()
    ensures { RoundsKeep }
{}

// The close of a round keeps an executor sound, and its queue short.
fn closes_keep_the_bounds()
    ensures { ClosesKeep }
{}

// A run starts within the bounds.
fn starts_keep_the_bounds()
    ensures { StartsKeep }
{}
