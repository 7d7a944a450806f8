// Reads the script on standard input a thousand times, so that an instruction counter tells what one reading costs.
#![tactic(auto)]

use faults::read_fault::ReadFault;
use script::read::read;
use std::alloc::Global;
use std::io;
use std::io::Read;

const READINGS: u32 = 1000;

// How many of the readings were accepted.
fn accepted(heap: Global, bytes: &[u8]) -> Result<u32, ReadFault> {
    let mut count: u32 = 0;
    for _ in 0..READINGS {
        let script = read(heap, bytes)?;
        if !script.tasks.is_empty() {
            count = count.saturating_add(1);
        }
    }
    Ok(count)
}

// Reading the input is two calls of the library, as in the other programs: one function for all would want a crate of its own.
fn main(rt: HostRuntime) -> io::Result<()> {
    let mut bytes = Vec::new(rt.alloc());
    rt.stdin().read_to_end(&mut bytes)?;
    let length = bytes.len();
    match accepted(rt.alloc(), bytes.as_slice()) {
        Ok(count) => println!(rt; "{count} of {READINGS} readings of {length} bytes accepted"),
        Err(_) => println!(rt; "refused"),
    }
}
