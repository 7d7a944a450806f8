// How a ledger takes memory and gives it back.
ghost use Rattle.std.specs.Prelude.{◌≡◌, true, is_ok, IfOk, IfErr};
ghost use Rattle.ledger.specs.Book.{view, empty, whole, right_size, wrong_size_number};

use crate::{LEAST_ENTRIES, Ledger, MOST_ENTRIES};
use entry::Entry;

// Memory that no ledger takes, given back: it has fewer places than the least or more than the most.
#[derive(Drop)]
pub struct WrongSize {
    pub memory: Vec<Entry>,
}

// The number of this refusal.
impl From<&WrongSize> for u8 {
    ghost from_gives = { λ _ number. number ≡ wrong_size_number };

    fn from(_refusal: &WrongSize) -> u8 {
        4
    }
}

impl Ledger {
    // An empty ledger over all the places of the memory, or the memory back.
    pub fn new(memory: Vec<Entry>) -> Result<Ledger, WrongSize>
        ensures test { is_ok result ≡ right_size memory.items }
        ensures made { IfOk result (λ l. view l ≡ empty memory.items) }
        ensures refused { IfErr result (λ e. e.memory ≡ memory) }
    {
        if !(LEAST_ENTRIES..=MOST_ENTRIES).contains(&memory.len()) {
            return Err(WrongSize { memory });
        }
        Ok(Ledger { memory, used: 0 })
    }

    // The memory: the entries written, then the old content of the places left.
    pub fn into_memory(self) -> Vec<Entry>
        ensures items { result.items ≡ whole (view self) }
        ensures again { right_size result.items ≡ true }
    {
        let Ledger { memory, used: _ } = self;
        memory
    }
}
