// Who runs the bodies of the tasks.
ghost use Rattle.std.specs.Prelude.{◌≡◌, ℕ};
ghost use Rattle.deterministic.specs.Model.{Model};
ghost use Rattle.deterministic.specs.Calls.{apply};
ghost use Rattle.deterministic.specs.Rules.{Turn};
ghost use Rattle.executor.specs.View.{view};

use crate::Executor;
use deterministic::outcome::Outcome;

// What a crew does is told by its value alone: from value, id and executor the rule gives the value after a call of the task's
// body, the calls that the body makes in their order, refused ones too, and what it comes to. (The Crew of the definitions as its
// supertrait was tried: the type of `value` cannot name a supertrait's member.)
pub trait Crew {
    ghost Value: { Type 0 };

    ghost value: { Self → Value };

    ghost rule: { Value → ℕ → Model → Turn Value };

    // Calls the body of a task. Afterwards the executor is the one before with those calls applied.
    fn poll(&mut self, id: u64, executor: &mut Executor) -> Outcome
        ensures outcome { result ≡ (rule (value self.old) id (view executor.old)).outcome }
        ensures next { value self.new ≡ (rule (value self.old) id (view executor.old)).value }
        ensures calls { view executor.new ≡ apply (rule (value self.old) id (view executor.old)).calls (view executor.old) };
}
