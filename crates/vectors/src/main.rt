// Runs the CRC-32C examples that RFC 3720 prints, and writes each checksum as that document does: lowest byte first.
#![tactic(auto)]

use crc32c::checksum;
use std::io;

const ASCENDING: [u8; 32] = [
    0, 1, 2, 3, 4, 5, 6, 7, 8, 9, 10, 11, 12, 13, 14, 15, 16, 17, 18, 19, 20, 21, 22, 23, 24, 25,
    26, 27, 28, 29, 30, 31,
];

const DESCENDING: [u8; 32] = [
    31, 30, 29, 28, 27, 26, 25, 24, 23, 22, 21, 20, 19, 18, 17, 16, 15, 14, 13, 12, 11, 10, 9, 8,
    7, 6, 5, 4, 3, 2, 1, 0,
];

// An iSCSI SCSI Read (10) command.
const READ_COMMAND: [u8; 48] = [
    0x01, 0xc0, 0, 0, 0, 0, 0, 0, 0, 0, 0, 0, 0, 0, 0, 0, 0x14, 0, 0, 0, 0, 0, 0x04, 0, 0, 0, 0,
    0x14, 0, 0, 0, 0x18, 0x28, 0, 0, 0, 0, 0, 0, 0, 0x02, 0, 0, 0, 0, 0, 0, 0,
];

fn show(rt: &HostRuntime, name: &str, message: &[u8]) -> io::Result<()> {
    let [a, b, c, d] = checksum(message).to_le_bytes();
    println!(rt; "{name}: {a:02x} {b:02x} {c:02x} {d:02x}")
}

fn main(rt: HostRuntime) -> io::Result<()> {
    show(&rt, "32 bytes of zeros", &[0; 32])?;
    show(&rt, "32 bytes of ones", &[0xff; 32])?;
    show(&rt, "32 bytes ascending", &ASCENDING)?;
    show(&rt, "32 bytes descending", &DESCENDING)?;
    show(&rt, "a read command", &READ_COMMAND)
}
