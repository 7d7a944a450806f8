// Where and why a script is refused.
ghost use Rattle.std.specs.Prelude.{◌≡◌};
ghost use Rattle.faults.specs.Faults.{at, number_of, layer_of};

// What is wrong with a script, by the number that its refusal has: those of calls come before, from 1 to 17.
#[derive(Clone, Copy, Debug, PartialEq, Eq)]
pub enum Reason {
    // More bytes than a script may have.
    TooLong = 18,
    // A line that is no form, or one out of its place.
    NoForm = 19,
    // A task too many, or a step too many in a task.
    TooMany = 20,
    // A name given twice or never, or no root.
    Name = 21,
}

// The part of the program that refuses.
#[derive(Clone, Copy, Debug, PartialEq, Eq)]
pub enum Layer {
    Reader,
    Script,
    Call,
}

// Lines count from 1; line 0 belongs to the script as a whole.
#[derive(Clone, Copy, Debug, PartialEq, Eq)]
pub struct Fault {
    pub line: usize,
    pub reason: Reason,
}

impl Reason {
    // The refusal at a line for this reason.
    pub fn at(self, line: usize) -> Fault
        ensures { result ≡ at line self }
    {
        Fault { line, reason: self }
    }

    // A method, and no conversion: a layer is not the reason in another form.
    // Bytes and lines are refused by the reader, what they say together by the script's rules.
    pub fn layer(self) -> Layer
        ensures { result ≡ layer_of self }
    {
        match self {
            Reason::TooLong | Reason::NoForm => Layer::Reader,
            Reason::TooMany | Reason::Name => Layer::Script,
        }
    }
}

// The number that the refusal has.
impl From<Reason> for u8 {
    ghost from_gives = { λ reason number. number ≡ number_of reason };

    fn from(reason: Reason) -> u8 {
        reason as u8
    }
}
