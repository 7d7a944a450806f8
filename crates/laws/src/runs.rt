// The laws of a run over every crew and every arranger.
ghost use Rattle.laws.specs.Lawful.{EveryHistoryIsLawful, EveryRunIsLawful};

use arrange::arranger::Arranger;
use deterministic::crew::Crew;

// Whatever goes by the rules of a round keeps the laws.
fn histories_are_lawful<C: Crew, W: Arranger<u64>>()
    ensures { EveryHistoryIsLawful C.rule W.rule }
{}

// The run as a function has a history that goes by the rules and keeps the laws.
fn runs_are_lawful<C: Crew, W: Arranger<u64>>()
    ensures { EveryRunIsLawful C.rule W.rule }
{}
