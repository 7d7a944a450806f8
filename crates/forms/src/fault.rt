// Why no form came of a line.
ghost use Rattle.std.specs.Prelude.{◌≡◌};
ghost use Rattle.forms.specs.declared.fault.FormFault.TheVariants.{NoForm, Memory};

use std::alloc::{AllocError, AllocFailed};
use tokens::token::LineFault;

// The line is no form, or its steps found no memory; which line it is, the reader of the whole script knows.
#[derive(Clone, Copy, Debug, PartialEq, Eq)]
pub enum FormFault {
    NoForm,
    Memory,
}

impl From<LineFault> for FormFault {
    ghost from_gives = { λ _ r. r ≡ NoForm };

    fn from(_fault: LineFault) -> FormFault {
        FormFault::NoForm
    }
}

impl From<AllocError> for FormFault {
    ghost from_gives = { λ _ r. r ≡ Memory };

    fn from(_fault: AllocError) -> FormFault {
        FormFault::Memory
    }
}

impl<T: Drop> From<AllocFailed<T>> for FormFault {
    ghost from_gives = { λ _ r. r ≡ Memory };

    fn from(_refused: AllocFailed<T>) -> FormFault {
        FormFault::Memory
    }
}
