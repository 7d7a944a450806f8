// The digest of a rehearsal's events so far.
ghost use Rattle.std.specs.Prelude.{◌≡◌, ℕ, List, [], ◌∷◌, ◌++◌};
ghost use Rattle.auditor.specs.Bytes.{big_endian};
ghost use Rattle.auditor.specs.Events.{Event, process_task, stop, stopped, two's_complement, digest_after, digest_of, Unmistakable};
ghost use Rattle.auditor.specs.Taken.{Taken, Told};

use crate::hasher::AuditHasher;

// A digest: a checksum, its highest byte first.
pub type Digest = [u8; 4];

// The digest of every event so far.
#[derive(Clone, Copy)]
pub struct Auditor {
    digest: Digest,
}

// A task's id in 16 bytes: ids are 64-bit here, and hashed as wide as the original's.
fn id_bytes(id: u64) -> [u8; 16]
    ensures { result ≡ big_endian 16 id }
{
    u128::from(id).to_be_bytes()
}

// A stop value in 4 bytes, two's complement.
fn value_bytes(value: i32) -> [u8; 4]
    ensures { result ≡ big_endian 4 (two's_complement value) }
{
    value.to_be_bytes()
}

impl Auditor {
    // No event has happened yet.
    pub fn new() -> Self
        ensures told { Told result [] }
    {
        Auditor { digest: [0; 4] }
    }

    // The digest after all events so far; it depends on them alone.
    pub fn digest(&self) -> Digest
        ensures value { result ≡ self.now.digest }
        ensures told { (events : List Event) → Told self.now events → result ≡ digest_of events }
    {
        self.digest
    }

    // An event's hasher, with the digest before the event and the event's name.
    fn begin(&self, name: &[u8]) -> AuditHasher
        ensures taken { Taken result (self.now.digest ∷ name.now ∷ []) }
    {
        let mut hasher = AuditHasher::new();
        hasher.update(&self.digest);
        hasher.update(name);
        hasher
    }

    // The task of this id and label is polled.
    pub fn process_task(&mut self, id: u64, label: &[u8])
        ensures after { self.new.digest ≡ digest_after self.old.digest (process_task id label.now) }
        ensures told { (events : List Event) → Told self.old events → Told self.new (events ++ process_task id label.now ∷ []) }
        ensures unmistakable { Unmistakable self.old.digest (process_task id label.now) }
    {
        let mut hasher = self.begin(b"process_task");
        let id = id_bytes(id);
        hasher.update(&id);
        hasher.update(label);
        self.digest = hasher.finalize();
    }

    // A stop with this value.
    pub fn stop(&mut self, value: i32)
        ensures after { self.new.digest ≡ digest_after self.old.digest (stop value) }
        ensures told { (events : List Event) → Told self.old events → Told self.new (events ++ stop value ∷ []) }
        ensures unmistakable { Unmistakable self.old.digest (stop value) }
    {
        let mut hasher = self.begin(b"stop");
        let value = value_bytes(value);
        hasher.update(&value);
        self.digest = hasher.finalize();
    }

    // A stop signal is taken.
    pub fn stopped(&mut self)
        ensures after { self.new.digest ≡ digest_after self.old.digest stopped }
        ensures told { (events : List Event) → Told self.old events → Told self.new (events ++ stopped ∷ []) }
        ensures unmistakable { Unmistakable self.old.digest stopped }
    {
        let hasher = self.begin(b"stopped");
        self.digest = hasher.finalize();
    }
}
