// A cell that is sent once: empty, or the first value that was sent into it.
#![tactic(auto)]

ghost use Rattle.std.specs.Prelude.{◌≡◌, is_some, Some, None};
ghost use Rattle.std.specs.Option.{option_map};
ghost use Rattle.oneshot.specs.Cell.{held, sent, send_answer};

// The text is one for every content: a stop value, a bare completion, a first fault. It is a type of its own, since what
// says that the first value stays is the type: std's OnceCell has these calls too, but no clause knows what a cell contains.
#[derive(Drop)]
pub struct OneShot<T> {
    value: Option<T>,
}

impl<T: Drop> OneShot<T> {
    // An empty cell.
    pub fn new() -> Self
        ensures { held result ≡ None }
    {
        OneShot { value: None }
    }

    // Sends a value. The first stays, and a later one is handed back.
    pub fn send(&mut self, value: T) -> Result<(), T>
        ensures answer { result ≡ send_answer (held self.old) value }
        ensures state { held self.new ≡ sent (held self.old) value }
        ensures first { (x : T) → held self.old ≡ Some x → held self.new ≡ Some x }
    {
        match self.value {
            Some(_) => Err(value),
            None => {
                self.value = Some(value);
                Ok(())
            }
        }
    }

    // The value that was sent, if one was.
    pub fn get(&self) -> Option<&T>
        ensures { option_map (λ x. x.now) result ≡ held self.now }
    {
        self.value.as_ref()
    }

    // Whether a value was sent.
    pub fn is_sent(&self) -> bool
        ensures { result ≡ is_some (held self.now) }
    {
        self.value.is_some()
    }
}
