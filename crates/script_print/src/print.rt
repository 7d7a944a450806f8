// A script in its canonical spelling.
ghost use Rattle.std.specs.Prelude.{◌≡◌, ℕ, List, ◌++◌, codes, decimal, Some, IfOk};
ghost use Rattle.forms.specs.Views.{act_of, task_of};
ghost use Rattle.grammar.specs.Spellable.{ReadBack};
ghost use Rattle.grammar.specs.Spelled.{placed, spelled, spelled_act, spelled_task};
ghost use Rattle.script.specs.Views.{script_of};
ghost use Rattle.script_print.specs.Grown.{Grown};

use forms::form::{Step, TaskForm};
use script::script::Script;
use std::alloc::{AllocError, Global};
use std::fmt::Display;

// Each function is given the bytes that grow, which are a vector and nothing more: a struct around it is no plainer.
// A keyword with its bracket, a name, and the bracket that closes the form.
fn put_name(out: &mut Vec<u8>, lead: &[u8], name: &[u8]) -> Result<(), AllocError>
    ensures { Grown result out.old.items out.new.items (lead.now ++ (name.now ++ codes ")")) }
{
    out.extend_from_slice(lead)?;
    out.extend_from_slice(name)?;
    out.extend_from_slice(b")")
}

// The same of a number, as its type prints it.
fn put_number<N: Display>(out: &mut Vec<u8>, lead: &[u8], number: &N) -> Result<(), AllocError>
    ensures { (digits : List ℕ) → N.output number.now ≡ Some digits → Grown result out.old.items out.new.items (lead.now ++ (digits ++ codes ")")) }
{
    let digits = number.to_string(*out.allocator())?;
    put_name(out, lead, digits.as_bytes())
}

fn put_step(out: &mut Vec<u8>, step: Step<'_>) -> Result<(), AllocError>
    ensures { Grown result out.old.items out.new.items (spelled_act (act_of step.entry)) }
{
    match step {
        Step::Sleep(duration_ns) => put_number(out, b"(sleep ", &duration_ns),
        Step::Spawn(name) => put_name(out, b"(spawn ", name),
        Step::Wake(name) => put_name(out, b"(wake ", name),
        Step::Abort(name) => put_name(out, b"(abort ", name),
        Step::Stop(value) => put_number(out, b"(stop ", &value),
        Step::Await => out.extend_from_slice(b"(await)"),
        Step::Done(value) => put_number(out, b"(done ", &value),
        Step::Fault(code) => put_number(out, b"(fault ", &code),
    }
}

// The line of a task, each step after a space.
fn put_task(out: &mut Vec<u8>, task: &TaskForm<'_>) -> Result<(), AllocError>
    ensures { Grown result out.old.items out.new.items (spelled_task (task_of task.now)) }
{
    out.extend_from_slice(b"(task ")?;
    out.extend_from_slice(task.name)?;
    for step in &task.steps {
        out.extend_from_slice(b" ")?;
        put_step(out, *step)?;
    }
    out.extend_from_slice(b")\n")
}

// The line of a setting that is a time.
fn put_time(out: &mut Vec<u8>, lead: &[u8], time_ns: u64) -> Result<(), AllocError>
    ensures { Grown result out.old.items out.new.items (lead.now ++ (decimal time_ns ++ codes ")\n")) }
{
    put_number(out, lead, &time_ns)?;
    out.extend_from_slice(b"\n")
}

// Cycle and start always, timeout and catch if they are set, and then the tasks.
fn printed(heap: Global, script: &Script<'_>) -> Result<Vec<u8>, AllocError>
    ensures { IfOk result (λ v. v.items ≡ spelled (script_of script.now)) }
{
    let mut out = Vec::new(heap);
    put_time(&mut out, b"(cycle ", script.cycle_ns)?;
    put_time(&mut out, b"(start ", script.start_ns)?;
    if let Some(timeout_ns) = script.timeout_ns {
        put_time(&mut out, b"(timeout ", timeout_ns)?;
    }
    if script.catch {
        out.extend_from_slice(b"(catch)\n")?;
    }
    for task in &script.tasks {
        put_task(&mut out, task)?;
    }
    Ok(out)
}

// The bytes of the script in its canonical spelling; names are any bytes, so the bytes need be no text.
pub fn print(heap: Global, script: &Script<'_>) -> Result<Vec<u8>, AllocError>
    ensures spelled { IfOk result (λ v. v.items ≡ spelled (script_of script.now)) }
    ensures readable { ReadBack (script_of script.now) }
    ensures settled { spelled (placed (script_of script.now)) ≡ spelled (script_of script.now) }
{
    printed(heap, script)
}
