// The register of the checksum, and what is fed to it.
ghost use Rattle.std.specs.Prelude.{◌≡◌, ℕ, List, [], ◌++◌};
ghost use Rattle.crc32c.specs.Crc.{after_byte, after_bytes, checksum_of};
ghost use Rattle.crc32c.specs.Fed.{Fed};

use crate::table::TABLE;

// A checksum in the making: the register after every byte fed so far.
#[derive(Clone, Copy)]
pub struct Crc32c {
    register: u32,
}

// The register after one byte more: the table has what its low byte comes to, the rest shifts down.
#[tactic(auto, using(crate::proofs::Rule::table_takes_byte), unfolding(crate::specs::Crc::after_eight, crate::specs::Crc::after_bit))]
fn take_byte(register: u32, byte: u8) -> u32
    ensures { result ≡ after_byte register byte }
{
    let low = ((register ^ byte as u32) & 0xff) as usize;
    TABLE[low] ^ (register >> 8)
}

impl Crc32c {
    // Nothing is fed yet.
    pub fn new() -> Self
        ensures fed { Fed result [] }
    {
        Crc32c {
            register: 0xffff_ffff,
        }
    }

    // Feeds some bytes more, after whatever was fed before.
    pub fn update(&mut self, bytes: &[u8])
        ensures register { self.new.register ≡ after_bytes self.old.register bytes.now }
        ensures fed { (before : List ℕ) → Fed self.old before → Fed self.new (before ++ bytes.now) }
    {
        self.register = bytes
            .iter()
            .fold(self.register, |register, byte| take_byte(register, *byte));
    }

    // The checksum of all bytes that were fed, however they were cut.
    pub fn finalize(self) -> u32
        ensures value { (all : List ℕ) → Fed self all → result ≡ checksum_of all }
    {
        self.register ^ 0xffff_ffff
    }
}

// The checksum of a whole message.
pub fn checksum(bytes: &[u8]) -> u32
    ensures { result ≡ checksum_of bytes.now }
{
    let mut crc = Crc32c::new();
    crc.update(bytes);
    crc.finalize()
}
