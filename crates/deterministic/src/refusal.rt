// Why a call of a body is refused.
ghost use Rattle.std.specs.Prelude.{◌≡◌};
ghost use Rattle.deterministic.specs.Numbers.{refusal_number};
ghost use Rattle.deterministic.specs.Trees.{of_tree};

use supervision::Refusal as TreeRefusal;

// Each has the number that it has as a fault's code.
#[derive(Clone, Copy, PartialEq, Eq)]
pub enum Refusal {
    // Fewer than 512 entries of the ledger are free, or 4,096 calls were granted in this poll.
    NoRoom = 5,
    // The id was never given out, or it is the root's and was to be aborted.
    UnknownTask = 6,
    // The context is not open, or another task holds it.
    NotOpen = 7,
    // The label has more than 32 bytes.
    LabelTooLong = 8,
    // 64 tasks are registered.
    TooManyTasks = 9,
    // 128 nodes live.
    TooManyNodes = 10,
    // A link is needed, and none of 256 is free.
    TooManyLinks = 11,
    // A task was to be spawned on an aborted context.
    ContextAborted = 12,
    // 256 ids or more wait.
    TooManyWaiting = 13,
    // 128 alarms stand.
    TooManyAlarms = 14,
    // The serial is not that of the task's own alarm for the time.
    NotOwnAlarm = 15,
    // The time would be past the greatest of 64 bits.
    TimeTooLarge = 16,
    // The task holds no signal, or there was no stop yet.
    NoSignal = 17,
}

// The refusal as a fault's code.
impl From<Refusal> for u32 {
    ghost from_gives = { λ e r. r ≡ refusal_number e };

    fn from(refusal: Refusal) -> u32 {
        refusal as u32
    }
}

// A refusal of the supervision tree, as that of a call.
impl From<TreeRefusal> for Refusal {
    ghost from_gives = { λ e r. r ≡ of_tree e };

    fn from(refusal: TreeRefusal) -> Refusal {
        match refusal {
            TreeRefusal::NotOpen => Refusal::NotOpen,
            TreeRefusal::NoNode => Refusal::TooManyNodes,
            TreeRefusal::NoLink => Refusal::TooManyLinks,
        }
    }
}
