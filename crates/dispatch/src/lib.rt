// What every step of a run goes through: the queues, the registered tasks and the ledger, changed together so that each id that
// is queued and each mark has its entry.
#![tactic(auto)]

use ledger::Ledger;
use queues::Queues;
use tasks::Tasks;

mod marking;
mod queuing;

// The fields are open, since a run also deals from the queues and registers tasks.
#[derive(Drop)]
pub struct Dispatcher {
    pub queues: Queues,
    pub tasks: Tasks,
    pub ledger: Ledger,
}
