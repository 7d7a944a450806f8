// What becomes of faults.
ghost use Rattle.std.specs.Prelude.{◌≡◌};
ghost use Rattle.state.specs.Faults.{view, none_kept, keeps, with_fault};

use oneshot::OneShot;

// An option of the cell would not say that none means caught: the names do.
#[derive(Drop)]
pub enum Faults {
    // They are caught, and end their tasks alone.
    Caught,
    // The code of the first of them is kept for the root.
    Kept(OneShot<u32>),
}

impl Faults {
    // No fault is kept yet.
    pub fn new(caught: bool) -> Faults
        ensures { view result ≡ none_kept caught }
    {
        if caught {
            Faults::Caught
        } else {
            Faults::Kept(OneShot::new())
        }
    }

    // Keeps the code of a fault, unless faults are caught or one was kept before. Answers whether it did.
    pub fn keep(&mut self, code: u32) -> bool
        ensures answer { result ≡ keeps (view self.old) }
        ensures state { view self.new ≡ with_fault code (view self.old) }
    {
        match self {
            Faults::Caught => false,
            Faults::Kept(first) => first.send(code).is_ok(),
        }
    }
}
