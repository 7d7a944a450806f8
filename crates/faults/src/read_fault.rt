// Why no script came of some bytes.
ghost use Rattle.std.specs.Prelude.{◌≡◌};
ghost use Rattle.faults.specs.declared.read_fault.ReadFault.TheVariants as fault;

use crate::fault::Fault;
use std::alloc::{AllocError, AllocFailed};

// The bytes are refused, or memory is wanting, which says nothing of them.
#[derive(Clone, Copy, Debug, PartialEq, Eq)]
pub enum ReadFault {
    Refused(Fault),
    Memory,
}

impl From<Fault> for ReadFault {
    ghost from_gives = { λ e r. r ≡ fault.Refused e };

    fn from(fault: Fault) -> ReadFault {
        ReadFault::Refused(fault)
    }
}

impl From<AllocError> for ReadFault {
    ghost from_gives = { λ e r. r ≡ fault.Memory };

    fn from(_: AllocError) -> ReadFault {
        ReadFault::Memory
    }
}

impl<T: Drop> From<AllocFailed<T>> for ReadFault {
    ghost from_gives = { λ e r. r ≡ fault.Memory };

    fn from(_: AllocFailed<T>) -> ReadFault {
        ReadFault::Memory
    }
}
