// Prints the digest after each event of an audit, read from a file or from standard input.
#![tactic(auto)]

use anyhow::anyhow;
use event_lines::audit::audit_input;
use std::io::{Read, Write};
use std::process::ExitCode;
use std::{env, fs};

const USAGE: &str = "usage: audit [FILE]";

// The bytes of the file that is named, or of standard input where none is or where it is `-`.
fn read_input(rt: &HostRuntime, name: Option<&str>) -> anyhow::Result<Vec<u8>> {
    match name {
        Some(path) if path != "-" => Ok(fs::read(rt, path)?),
        _ => {
            let mut input = Vec::new(rt.alloc());
            rt.stdin().read_to_end(&mut input)?;
            Ok(input)
        }
    }
}

// Prints what the audit tells; a line that is no event is an error, after all that comes before it is printed.
fn show(rt: &HostRuntime, input: &[u8]) -> anyhow::Result<()> {
    let audited = audit_input(rt.alloc(), input)?;
    rt.stdout().write_all(&audited.text)?;
    match audited.misread {
        None => Ok(()),
        Some(misread) => {
            eprintln!(rt; "{misread}")?;
            Err(anyhow!("a line is no event"))
        }
    }
}

// Reads the events that the arguments name, and prints what the audit tells of them.
fn run(rt: &HostRuntime, name: Option<&str>) -> anyhow::Result<()> {
    let input = match read_input(rt, name) {
        Ok(input) => input,
        Err(error) => {
            eprintln!(rt; "audit: {error}")?;
            return Err(error);
        }
    };
    show(rt, &input)
}

// Audits the file that is named on the command line, if one is.
fn start(rt: &HostRuntime) -> anyhow::Result<()> {
    let mut args = env::args(rt)?;
    let _program = args.next();
    let name = args.next();
    if args.next().is_some() {
        eprintln!(rt; "{USAGE}")?;
        return Err(anyhow!("too many arguments"));
    }
    run(rt, name.as_deref())
}

// What is to be told is told before; an error sets the status alone.
fn main(rt: HostRuntime) -> ExitCode {
    match start(&rt) {
        Ok(()) => ExitCode::SUCCESS,
        Err(_) => ExitCode::FAILURE,
    }
}
