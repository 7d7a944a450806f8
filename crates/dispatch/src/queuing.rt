// How entries are written, and ids queued with the entry that says why.
ghost use Rattle.std.specs.Prelude.{◌≡◌, ◌<◌, length};
ghost use Rattle.queues.specs.View as queues;
ghost use Rattle.deterministic.specs.Model.{noted, queued};
ghost use Rattle.deterministic.specs.Moves.{moves, wakes};
ghost use Rattle.dispatch.specs.Seen.{Leads, HasRoom, Spends, free_entries};

use crate::Dispatcher;
use entry::Entry;
use reasons::cause::Cause;

impl Dispatcher {
    // How many entries can still be written.
    pub fn free(&self) -> usize
        ensures value { result ≡ free_entries self.now }
    {
        self.ledger.free()
    }

    // Writes an entry that queues nobody.
    pub fn write(&mut self, entry: Entry)
        requires room { 0 < free_entries self.old }
        ensures state { Leads self.old self.new (noted entry) }
        ensures queues { queues.view self.new.queues ≡ queues.view self.old.queues }
        ensures spent { Spends self.old self.new 1 0 }
    {
        self.ledger.write(entry);
    }

    // Queues an id, with the entry that says why.
    pub fn queue(&mut self, id: u64, entry: Entry)
        requires room { HasRoom self.old 1 1 }
        ensures state { Leads self.old self.new (queued id entry) }
        ensures spent { Spends self.old self.new 1 1 }
    {
        self.queues.push(id);
        self.ledger.write(entry);
    }

    // Queues these ids in this order, each with the entry of its wake, for one cause.
    pub fn queue_all(&mut self, ids: &[u64], cause: Cause)
        requires room { HasRoom self.old (length ids.now) (length ids.now) }
        ensures state { Leads self.old self.new (moves (wakes cause ids.now)) }
        ensures spent { Spends self.old self.new (length ids.now) (length ids.now) }
    {
        for id in ids {
            self.queue(*id, Entry::Wake(*id, cause));
        }
    }
}
