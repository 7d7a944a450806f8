// Facts of the definitions, each proved.
ghost use Rattle.deterministic.specs.Facts.{EveryRunGoesByTheRules, CallsAreMoves};

use crate::crew::Crew;
use arrange::arranger::Arranger;

// The run as a function, over every crew and every arranger, goes by the rules of a round.
fn runs_go_by_the_rules<C: Crew, W: Arranger<u64>>()
    ensures { EveryRunGoesByTheRules C.rule W.rule }
{}

// What calls do is made of their moves.
fn calls_are_moves()
    ensures { CallsAreMoves }
{}
