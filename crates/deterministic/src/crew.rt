// Who runs the bodies of the tasks.
ghost use Rattle.std.specs.Prelude.{ℕ};
ghost use Rattle.deterministic.specs.Model.{Model};
ghost use Rattle.deterministic.specs.Rules.{Turn};

// What a crew does is told by its value alone: from value, id and executor the rule gives the value after a call of the
// task's body, the calls that the body makes in their order, refused ones too, and what it comes to.
pub trait Crew {
    ghost Value: { Type 0 };

    ghost rule: { Value → ℕ → Model → Turn Value };
}
