// How entries are written and read.
ghost use Rattle.std.specs.Prelude.{◌≡◌, ◌+◌, ◌<◌};
ghost use Rattle.ledger.specs.Book.{view, free, written};

use crate::Ledger;
use entry::Entry;

impl Ledger {
    // How many entries can still be written.
    pub fn free(&self) -> usize
        ensures value { result ≡ free (view self.now) }
    {
        self.memory.len() - self.used
    }

    // Writes one entry more. There has to be a free place: the run tests for many at once.
    pub fn write(&mut self, entry: Entry)
        requires room { 0 < free (view self.old) }
        ensures state { view self.new ≡ written entry (view self.old) }
        ensures left { free (view self.new) + 1 ≡ free (view self.old) }
    {
        self.memory[self.used] = entry;
        self.used += 1;
    }

    // The entries written so far, first to last.
    pub fn entries(&self) -> &[Entry]
        ensures value { result.now ≡ (view self.now).log }
    {
        &self.memory[..self.used]
    }
}
