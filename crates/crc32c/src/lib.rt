// CRC-32C, the checksum of RFC 3720, fed piece by piece.
#![tactic(auto)]

mod register;
mod table;

pub use register::{Crc32c, checksum};
