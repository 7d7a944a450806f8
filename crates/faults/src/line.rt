// The line that tells a refusal, be it of a script or of a call.
ghost use Rattle.std.specs.Prelude.{◌≡◌, Some};
ghost use Rattle.faults.specs.Faults.{told};
ghost use Rattle.faults.specs.Shown.{layer_word, fault_line};

use crate::fault::{Fault, Layer};
use std::fmt;

// What is told of a refusal: the script's line, its number and who refused.
#[derive(Clone, Copy, Debug, PartialEq, Eq)]
pub struct FaultLine {
    pub line: usize,
    // The number as it is told: the refusals of scripts and of calls have no enum in common that would say it plainer.
    pub number: u8,
    pub layer: Layer,
}

impl From<Fault> for FaultLine {
    ghost from_gives = { λ e r. r ≡ told e };

    fn from(fault: Fault) -> FaultLine {
        FaultLine {
            line: fault.line,
            number: fault.reason.into(),
            layer: fault.reason.layer(),
        }
    }
}

impl fmt::Display for Layer {
    ghost output = { λ l. Some (layer_word l) };

    fn fmt<W: fmt::Write>(&self, f: &mut fmt::Formatter<W>) -> fmt::Result {
        match *self {
            Layer::Reader => write!(f, "reader"),
            Layer::Script => write!(f, "script"),
            Layer::Call => write!(f, "call"),
        }
    }
}

impl fmt::Display for FaultLine {
    ghost output = { λ l. Some (fault_line l) };

    fn fmt<W: fmt::Write>(&self, f: &mut fmt::Formatter<W>) -> fmt::Result {
        let FaultLine {
            line,
            number,
            layer,
        } = *self;
        write!(f, "(fault {line} {number} {layer})")
    }
}
