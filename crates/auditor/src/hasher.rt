// Hashes parts so that no two lists of parts feed the same bytes.
ghost use Rattle.std.specs.Prelude.{◌≡◌, ℕ, List, [], ◌∷◌, ◌++◌};
ghost use Rattle.auditor.specs.Bytes.{big_endian, Unambiguous};
ghost use Rattle.auditor.specs.Events.{digest_of_parts};
ghost use Rattle.auditor.specs.Taken.{Taken};

use crc32c::Crc32c;

// A digest in the making: the checksum of every part so far, each behind its length.
pub struct AuditHasher {
    crc: Crc32c,
}

// A length in 8 bytes.
fn length_prefix(length: usize) -> [u8; 8]
    ensures { result ≡ big_endian 8 length }
{
    length.to_be_bytes()
}

// A checksum in 4 bytes.
fn digest_bytes(checksum: u32) -> [u8; 4]
    ensures { result ≡ big_endian 4 checksum }
{
    checksum.to_be_bytes()
}

impl AuditHasher {
    // No part is taken yet.
    pub fn new() -> Self
        ensures taken { Taken result [] }
    {
        AuditHasher { crc: Crc32c::new() }
    }

    // Takes one part more, behind its length.
    pub fn update(&mut self, part: &[u8])
        ensures taken { (parts : List (List ℕ)) → Taken self.old parts → Taken self.new (parts ++ part.now ∷ []) }
    {
        let prefix = length_prefix(part.len());
        self.crc.update(&prefix);
        self.crc.update(part);
    }

    // The digest of all parts that were taken; no two lists of parts are hashed as the same bytes.
    pub fn finalize(self) -> [u8; 4]
        ensures unambiguous { Unambiguous }
        ensures value { (parts : List (List ℕ)) → Taken self parts → result ≡ digest_of_parts parts }
    {
        let AuditHasher { crc } = self;
        digest_bytes(crc.finalize())
    }
}
