// A task's part in the stop signal.
ghost use Rattle.std.specs.Prelude.{◌≡◌};
ghost use Rattle.roster.specs.Row.{task_of, fresh, with_signal, takes, awaits, lets_go, asks, is_open, holds, is_waiting, has_asked};

use keyed::record::Record;

// What a task holds of the stop signal.
#[derive(Clone, Copy, PartialEq, Eq)]
pub enum Signal {
    // It has taken none, or let it go.
    Absent,
    // It took one before the stop, and had not asked it before the stop. Asking it after the stop leaves it so.
    Open,
    // It took one before the stop, and asked it before the stop: it waits for the stop, which leaves it so.
    Awaited,
    // It took one after the stop.
    Closed,
}

// A task, what it holds of the signal, and whether it ever asked for completion.
#[derive(Clone, Copy)]
pub struct Row {
    task: u64,
    signal: Signal,
    asked: bool,
}

impl Record for Row {
    ghost key = { task_of };

    // The task.
    fn key(&self) -> u64 {
        self.task
    }
}

impl Row {
    // A task that holds no signal and has asked for nothing.
    pub fn new(task: u64) -> Row
        ensures { result ≡ fresh task }
    {
        Row {
            task,
            signal: Signal::Absent,
            asked: false,
        }
    }

    // The row with this signal.
    fn with(self, signal: Signal) -> Row
        ensures { result ≡ with_signal signal self }
    {
        Row { signal, ..self }
    }

    // Its task takes this signal, unless it holds one.
    pub fn take(self, signal: Signal) -> Row
        ensures { result ≡ takes signal self }
    {
        match self.signal {
            Signal::Absent => self.with(signal),
            _ => self,
        }
    }

    // Its task asks the signal before the stop.
    pub fn wait(self) -> Row
        ensures { result ≡ awaits self }
    {
        match self.signal {
            Signal::Open => self.with(Signal::Awaited),
            _ => self,
        }
    }

    // Its task lets the signal go.
    pub fn let_go(self) -> Row
        ensures { result ≡ lets_go self }
    {
        self.with(Signal::Absent)
    }

    // Its task asks for completion.
    pub fn ask(self) -> Row
        ensures { result ≡ asks self }
    {
        Row {
            asked: true,
            ..self
        }
    }

    // Whether its task holds a signal.
    pub fn holds(&self) -> bool
        ensures { result ≡ holds self.now }
    {
        self.signal != Signal::Absent
    }

    // Whether its task holds an open signal.
    pub fn is_open(&self) -> bool
        ensures { result ≡ is_open self.now }
    {
        matches!(self.signal, Signal::Open | Signal::Awaited)
    }

    // Whether its task waits for the stop.
    pub fn is_waiting(&self) -> bool
        ensures { result ≡ is_waiting self.now }
    {
        self.signal == Signal::Awaited
    }

    // Whether its task asked for completion.
    pub fn has_asked(&self) -> bool
        ensures { result ≡ has_asked self.now }
    {
        self.asked
    }
}
