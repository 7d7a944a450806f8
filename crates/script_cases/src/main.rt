// Reads the scripts on standard input, each after a line `= NAME`, and lists what comes of each.
//
// Each line of a script follows a `|`. What follows a `.` goes in without an LF: the end of a script that has none there,
// or a part of a long line.
#![tactic(auto)]

use faults::line::FaultLine;
use faults::read_fault::ReadFault;
use lines::split_line;
use script::read::read;
use script_print::print::print;
use std::alloc::{AllocError, Global};
use std::io;
use std::io::{Read, Write};

// A script and what it shows. What comes before the first name is a case without one, which is told only where no name follows.
#[derive(Drop)]
struct Case<'a> {
    name: &'a [u8],
    script: Vec<u8>,
}

// What an accepted script has: its tasks, and its bytes as they are printed.
#[derive(Clone, Copy)]
struct Accepted {
    tasks: usize,
    printed_bytes: usize,
}

impl<'a> Case<'a> {
    fn new(heap: Global, name: &'a [u8]) -> Self {
        Case {
            name,
            script: Vec::new(heap),
        }
    }

    fn add(&mut self, part: &[u8], ended: bool) -> Result<(), AllocError> {
        self.script.extend_from_slice(part)?;
        if ended {
            self.script.extend_from_slice(b"\n")?;
        }
        Ok(())
    }

    fn tell(&self, rt: &HostRuntime) -> io::Result<()> {
        rt.stdout().write_all(self.name)?;
        match outcome(rt.alloc(), self.script.as_slice()) {
            Ok(accepted) => {
                let tasks = accepted.tasks;
                let bytes = accepted.printed_bytes;
                println!(rt; ": {tasks} tasks in {bytes} bytes")
            }
            Err(ReadFault::Refused(fault)) => {
                let line = FaultLine::from(fault);
                println!(rt; ": {line}")
            }
            Err(ReadFault::Memory) => println!(rt; ": no memory"),
        }
    }
}

fn outcome(heap: Global, bytes: &[u8]) -> Result<Accepted, ReadFault> {
    let script = read(heap, bytes)?;
    let printed = print(heap, &script)?;
    Ok(Accepted {
        tasks: script.tasks.len(),
        printed_bytes: printed.len(),
    })
}

// Tells each case as the next one begins, and the last at the end.
fn tell_cases(rt: &HostRuntime, bytes: &[u8]) -> io::Result<()> {
    let mut case = Case::new(rt.alloc(), b"");
    let mut rest = bytes;
    while let Some((line, after)) = split_line(rest) {
        rest = after;
        if line.is_empty() {
            continue;
        }
        let (mark, part) = line.split_at(1);
        match mark[0] {
            b'=' => {
                if !case.name.is_empty() {
                    case.tell(rt)?;
                }
                case = Case::new(rt.alloc(), part);
            }
            b'|' => case.add(part, true)?,
            _ => case.add(part, false)?,
        }
    }
    case.tell(rt)
}

// Reading the input is two calls of the library, as in the other programs: one function for all would want a crate of its own.
fn main(rt: HostRuntime) -> io::Result<()> {
    let mut bytes = Vec::new(rt.alloc());
    rt.stdin().read_to_end(&mut bytes)?;
    tell_cases(&rt, bytes.as_slice())
}
