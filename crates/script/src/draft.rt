// What the lines of a script say so far.
ghost use Rattle.std.specs.Prelude.{◌≡◌, Some};
ghost use Rattle.forms.specs.Forms.{form_of};
ghost use Rattle.forms.specs.Views.{acts_of, says_of, task_of};
ghost use Rattle.grammar.specs.Reading.{blank, drafted, has_room, in_place, planned, with_setting};
ghost use Rattle.script.specs.Drafts.{is_given, on_line, said_in};
ghost use Rattle.script.specs.Views.{script_of, seen, Agrees};

use crate::script::Script;
use faults::fault::{Fault, Reason};
use faults::read_fault::ReadFault;
use forms::fault::FormFault;
use forms::form::{Form, Setting, TaskForm};
use forms::reader::read_form;
use names::{is_among, misnamed_line};
use std::alloc::Global;

const MOST_TASKS: usize = 16;

const MOST_STEPS: usize = 32;

const DEFAULT_CYCLE_NS: u64 = 1_000_000;

const DEFAULT_START_NS: u64 = 0;

// Why a line is refused that no form came of. No From, since the line has to be told too.
fn refusal(fault: FormFault, line: usize) -> ReadFault
    ensures { result ≡ on_line line fault }
{
    match fault {
        FormFault::NoForm => Reason::NoForm.at(line).into(),
        FormFault::Memory => ReadFault::Memory,
    }
}

// Each setting if a line gave it, and the tasks in order.
#[derive(Drop)]
pub struct Draft<'a> {
    cycle_ns: Option<u64>,
    start_ns: Option<u64>,
    timeout_ns: Option<u64>,
    catch: bool,
    tasks: Vec<TaskForm<'a>>,
}

impl<'a> Draft<'a> {
    // A draft that says nothing yet.
    pub fn new(heap: Global) -> Self
        ensures { said_in result ≡ blank }
    {
        Draft {
            cycle_ns: None,
            start_ns: None,
            timeout_ns: None,
            catch: false,
            tasks: Vec::new(heap),
        }
    }

    fn is_given(&self, setting: Setting) -> bool
        ensures { result ≡ is_given setting (said_in self.now) }
    {
        match setting {
            Setting::Cycle(_) => self.cycle_ns.is_some(),
            Setting::Start(_) => self.start_ns.is_some(),
            Setting::Timeout(_) => self.timeout_ns.is_some(),
            Setting::Catch => self.catch,
        }
    }

    // Settings come before the tasks, each at most once.
    fn in_place(&self, setting: Setting) -> bool
        ensures { result ≡ in_place setting (said_in self.now) }
    {
        self.tasks.is_empty() && !self.is_given(setting)
    }

    fn set(&mut self, setting: Setting)
        ensures { said_in self.new ≡ with_setting setting (said_in self.old) }
    {
        match setting {
            Setting::Cycle(cycle_ns) => self.cycle_ns = Some(cycle_ns),
            Setting::Start(start_ns) => self.start_ns = Some(start_ns),
            Setting::Timeout(timeout_ns) => self.timeout_ns = Some(timeout_ns),
            Setting::Catch => self.catch = true,
        }
    }

    fn has_room(&self, task: &TaskForm<'_>) -> bool
        ensures { result ≡ has_room (said_in self.now).tasks (acts_of task.now) }
    {
        self.tasks.len() < MOST_TASKS && task.steps.len() <= MOST_STEPS
    }

    fn accept(&mut self, line: usize, form: Form<'a>) -> Result<(), ReadFault>
        ensures { Agrees (λ _. said_in self.new) result (drafted line (Some (says_of form.entry)) (said_in self.old)) }
    {
        match form {
            Form::Setting(setting) if self.in_place(setting) => {
                self.set(setting);
                Ok(())
            }
            Form::Setting(_) => Err(Reason::NoForm.at(line).into()),
            Form::Task(task) if self.has_room(&task) => {
                self.tasks.push(TaskForm { line, ..task })?;
                Ok(())
            }
            Form::Task(_) => Err(Reason::TooMany.at(line).into()),
        }
    }

    // The draft with what its next line says.
    pub fn take_line(
        &mut self,
        heap: Global,
        number: usize,
        line: &'a [u8],
    ) -> Result<(), ReadFault>
        ensures { Agrees (λ _. said_in self.new) result (drafted number (form_of line.now) (said_in self.old)) }
    {
        let form = read_form(heap, number, line).map_err(|fault| refusal(fault, number))?;
        self.accept(number, form)
    }

    // The script that the draft is, where its names are in order.
    pub fn finish(self) -> Result<Script<'a>, Fault>
        ensures { seen script_of result ≡ planned (said_in self.entry) }
    {
        let tasks = self.tasks.as_slice();
        if let Some(line) = misnamed_line(tasks) {
            return Err(Reason::Name.at(line));
        }
        if !is_among(b"root", tasks) {
            return Err(Reason::Name.at(0));
        }
        Ok(Script {
            cycle_ns: self.cycle_ns.unwrap_or(DEFAULT_CYCLE_NS),
            start_ns: self.start_ns.unwrap_or(DEFAULT_START_NS),
            timeout_ns: self.timeout_ns,
            catch: self.catch,
            tasks: self.tasks,
        })
    }
}
