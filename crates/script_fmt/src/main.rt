// Prints a script in its canonical spelling, or the line of the fault that it has.
#![tactic(auto)]

use faults::line::FaultLine;
use faults::read_fault::ReadFault;
use script::read::read;
use script_print::print::print;
use std::alloc::AllocError;
use std::io::{Read, Write};
use std::process::ExitCode;
use std::{env, fmt, fs, io};

// Why nothing was printed.
#[derive(Drop)]
enum Failure {
    Usage,
    Input(io::Error),
    Output(io::Error),
    Memory,
    Refused(FaultLine),
}

impl From<AllocError> for Failure {
    fn from(_: AllocError) -> Failure {
        Failure::Memory
    }
}

impl From<ReadFault> for Failure {
    fn from(fault: ReadFault) -> Failure {
        match fault {
            ReadFault::Refused(fault) => Failure::Refused(fault.into()),
            ReadFault::Memory => Failure::Memory,
        }
    }
}

impl fmt::Display for Failure {
    fn fmt<W: fmt::Write>(&self, f: &mut fmt::Formatter<W>) -> fmt::Result {
        match self {
            Failure::Usage => write!(f, "at most one file; call it as: script_fmt [FILE]"),
            Failure::Input(error) => write!(f, "the script cannot be read: {error}"),
            Failure::Output(error) => write!(f, "the script cannot be printed: {error}"),
            Failure::Memory => write!(f, "no memory is left"),
            Failure::Refused(line) => write!(f, "{line}"),
        }
    }
}

// The file that the program was called with: none, or `-`, is standard input.
fn file_argument(rt: &HostRuntime) -> Result<Option<String>, Failure> {
    let mut arguments = env::args(rt).map_err(|_| Failure::Memory)?;
    let _program = arguments.next();
    let file = arguments.next();
    if arguments.next().is_some() {
        return Err(Failure::Usage);
    }
    match file {
        Some(file) if file.as_str() == "-" => Ok(None),
        Some(file) if file.as_str().starts_with('-') => Err(Failure::Usage),
        file => Ok(file),
    }
}

fn input(rt: &HostRuntime) -> Result<Vec<u8>, Failure> {
    let read = match file_argument(rt)? {
        Some(file) => fs::read(rt, file.as_str()),
        None => standard_input(rt),
    };
    read.map_err(Failure::Input)
}

// Two calls of the library, as in the other programs of scripts: one function for all would want a crate of its own.
fn standard_input(rt: &HostRuntime) -> io::Result<Vec<u8>> {
    let mut bytes = Vec::new(rt.alloc());
    rt.stdin().read_to_end(&mut bytes)?;
    Ok(bytes)
}

fn format(rt: &HostRuntime) -> Result<(), Failure> {
    let bytes = input(rt)?;
    let script = read(rt.alloc(), bytes.as_slice())?;
    let spelled = print(rt.alloc(), &script)?;
    rt.stdout()
        .write_all(spelled.as_slice())
        .map_err(Failure::Output)
}

// The fault line is an answer and goes to standard output; what else fails is told on standard error.
fn tell(rt: &HostRuntime, failure: &Failure) -> io::Result<()> {
    match failure {
        Failure::Refused(_) => println!(rt; "{failure}"),
        _ => eprintln!(rt; "script_fmt: {failure}"),
    }
}

fn main(rt: HostRuntime) -> ExitCode {
    let Err(failure) = format(&rt) else {
        return ExitCode::SUCCESS;
    };
    let _ = tell(&rt, &failure);
    ExitCode::FAILURE
}
