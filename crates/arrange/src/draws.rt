// Sources of 64-bit draws.
ghost use Rattle.std.specs.Prelude.{◌≡◌};
ghost use Rattle.arrange.specs.Draws.{Drawn};

// A source of draws. What it will draw is told by its value alone: the rule gives the next draw and the value after it.
pub trait Draws {
    ghost Value: { Type 0 };

    ghost value: { Self → Value };

    ghost rule: { Value → Drawn Value };

    // The next draw.
    fn draw(&mut self) -> u64
        ensures draw { result ≡ (rule (value self.old)).draw }
        ensures next { value self.new ≡ (rule (value self.old)).value };
}
