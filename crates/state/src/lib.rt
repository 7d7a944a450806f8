// The state of an executor: every part that a run works on, its memory reserved at the start.
#![tactic(auto)]

pub mod faults;
pub mod making;

use alarms::Alarms;
use auditor::Auditor;
use deterministic::body::Body;
use deterministic::clock::Clock;
use deterministic::counts::Counts;
use dispatch::Dispatcher;
use faults::Faults;
use signal::Stopper;
use supervision::Tree;

#[derive(Drop)]
pub struct State {
    pub clock: Clock,
    // The queues, the registered tasks and the ledger.
    pub dispatcher: Dispatcher,
    pub tree: Tree,
    pub alarms: Alarms,
    pub stop: Stopper,
    pub faults: Faults,
    pub counts: Counts,
    pub auditor: Auditor,
    // Whose body is called, and its granted calls.
    pub body: Body,
}
