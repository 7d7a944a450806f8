// What stands in a table.
ghost use Rattle.std.specs.Prelude.{◌≡◌, ℕ};

// A record has a key, which tells it apart from the others.
pub trait Record: Copy {
    ghost key: { Self → ℕ };

    // The key.
    fn key(&self) -> u64
        ensures { result ≡ key self.now };
}
