// How a state is made, with its root registered and queued.
ghost use Rattle.std.specs.Prelude.{◌≡◌, ◌<◌, IfOk, IfErr};
ghost use Rattle.entry.specs.declared.Entry.TheVariants.{Reg};
ghost use Rattle.ledger.specs.Book.{view as book_of, free};
ghost use Rattle.signal.specs.Model.{view as stops_of, unstopped, entered};
ghost use Rattle.supervision.specs.Calls.{view as tree_of, founded};
ghost use Rattle.alarms.specs.Model.{view as bells_of, silent};
ghost use Rattle.queues.specs.View.{view as queues_of, nothing_queued};
ghost use Rattle.tasks.specs.Model.{view as registry_of};
ghost use Rattle.deterministic.specs.Model.{queued};
ghost use Rattle.deterministic.specs.Start.{idle_at, root_alone};
ghost use Rattle.state.specs.View.{view};

use crate::State;
use crate::faults::Faults;
use alarms::Alarms;
use auditor::Auditor;
use deterministic::body::Body;
use deterministic::clock::Clock;
use deterministic::counts::Counts;
use dispatch::Dispatcher;
use entry::Entry;
use ledger::Ledger;
use queues::Queues;
use signal::Stopper;
use std::alloc::{AllocError, Global};
use supervision::Tree;
use tasks::Tasks;
use tasks::label::Label;

// The id of the root.
pub const ROOT: u64 = 0;

// The parts of a state that have memory of their own.
#[derive(Drop)]
struct Parts {
    queues: Queues,
    tasks: Tasks,
    tree: Tree,
    alarms: Alarms,
    stop: Stopper,
}

impl Parts {
    // All parts with their memory, and the root registered in them.
    fn new(heap: Global) -> Result<Parts, AllocError>
        ensures queues { IfOk result (λ p. queues_of p.queues ≡ nothing_queued) }
        ensures tasks { IfOk result (λ p. registry_of p.tasks ≡ root_alone) }
        ensures tree { IfOk result (λ p. tree_of p.tree ≡ founded) }
        ensures alarms { IfOk result (λ p. bells_of p.alarms ≡ silent) }
        ensures stop { IfOk result (λ p. stops_of p.stop ≡ entered 0 unstopped) }
    {
        let queues = Queues::new(heap)?;
        let mut tasks = Tasks::new(heap)?;
        let tree = Tree::new(heap)?;
        let alarms = Alarms::new(heap)?;
        let mut stop = Stopper::new(heap)?;
        let root = tasks.add(Label::root(), None);
        stop.register(root);
        Ok(Parts {
            queues,
            tasks,
            tree,
            alarms,
            stop,
        })
    }
}

impl State {
    // The state at the start of a run, over this ledger, which comes back where memory is wanting. Nothing is allocated after
    // this.
    pub fn new(heap: Global, clock: Clock, caught: bool, ledger: Ledger) -> Result<State, Ledger>
        requires room { 0 < free (book_of ledger) }
        ensures state { IfOk result (λ s. view s ≡ queued 0 (Reg 0) (idle_at clock caught (book_of ledger))) }
        ensures returned { IfErr result (λ l. l ≡ ledger) }
    {
        let Ok(parts) = Parts::new(heap) else {
            return Err(ledger);
        };
        let Parts {
            queues,
            tasks,
            tree,
            alarms,
            stop,
        } = parts;
        let mut dispatcher = Dispatcher {
            queues,
            tasks,
            ledger,
        };
        dispatcher.queue(ROOT, Entry::Reg(ROOT));
        Ok(State {
            clock,
            dispatcher,
            tree,
            alarms,
            stop,
            faults: Faults::new(caught),
            counts: Counts {
                iterations: 0,
                spawned: 0,
                running: 0,
                polls: 0,
            },
            auditor: Auditor::new(),
            body: Body {
                task: ROOT,
                granted: 0,
            },
        })
    }
}
