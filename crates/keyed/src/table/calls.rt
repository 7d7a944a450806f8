// What is done with a table.
ghost use Rattle.std.specs.Prelude.{◌≡◌, ℕ, ◌+◌, ◌^◌, ◌<◌, ◌≤◌, false, [], ◌∷◌, ◌++◌, length, IfOk, MatchOption, slice_index_or};
ghost use Rattle.std.specs.List.{AllZip};
ghost use Rattle.keyed.specs.Keyed.{find, known, change, without};
ghost use Rattle.keyed.specs.Table.{rows, next_key};
ghost use Rattle.reserved.specs.Closures.{Computes};

use super::Table;
use crate::record::Record;
use reserved::Reserved;
use std::alloc::{AllocError, Global};

// What each call leaves of the records and of the next key are two clauses, since callers use the one without the other.
impl<T: Record, const N: usize> Table<T, N> {
    // An empty table, with the memory for N records.
    pub fn new(heap: Global) -> Result<Self, AllocError>
        ensures made { IfOk result (λ t. (rows t ≡ []) × (next_key t ≡ 0)) }
    {
        let rows = Reserved::new(heap)?;
        Ok(Table { rows, next: 0 })
    }

    // How many records it holds.
    pub fn len(&self) -> usize
        ensures value { result ≡ length (rows self.now) }
        ensures few { result ≤ N }
    {
        self.rows.len()
    }

    // The least key that the next record may have.
    pub fn next(&self) -> u64
        ensures { result ≡ next_key self.now }
    {
        self.next
    }

    // The records, by ascending key.
    pub fn as_slice(&self) -> &[T]
        ensures value { result.now ≡ rows self.now }
        ensures few { length result.now ≤ N }
    {
        self.rows.as_slice()
    }

    // Where the record with this key stands. The first record is looked at first, since it is asked for most.
    fn place(&self, key: u64) -> Option<usize>
        ensures { MatchOption result (known T.key key (rows self.now) ≡ false) (λ i. (i < length (rows self.now)) × ((d : T) → T.key (slice_index_or (rows self.now) i d) ≡ key)) }
    {
        match self.as_slice().first() {
            Some(row) if row.key() == key => Some(0),
            _ => self.place_by_halves(key),
        }
    }

    // Where the record with this key stands. Keys ascend, so half of those left are ruled out at a time.
    fn place_by_halves(&self, key: u64) -> Option<usize>
        ensures { MatchOption result (known T.key key (rows self.now) ≡ false) (λ i. (i < length (rows self.now)) × ((d : T) → T.key (slice_index_or (rows self.now) i d) ≡ key)) }
    {
        let rows = self.as_slice();
        let mut low = 0;
        let mut high = rows.len();
        while low < high {
            let middle = low + (high - low) / 2;
            let here = rows[middle].key();
            if here == key {
                return Some(middle);
            }
            if here < key {
                low = middle + 1;
            } else {
                high = middle;
            }
        }
        None
    }

    // The record with this key, if there is one.
    pub fn find(&self, key: u64) -> Option<T>
        ensures { result ≡ find T.key key (rows self.now) }
    {
        let at = self.place(key)?;
        Some(self.as_slice()[at])
    }

    // Adds a record at the end, whose key is at least `next`.
    pub fn push(&mut self, row: T)
        requires rises { next_key self.old ≤ T.key row }
        requires fits { T.key row + 1 < 2 ^ 64 }
        requires room { length (rows self.old) < N }
        ensures rows { rows self.new ≡ rows self.old ++ row ∷ [] }
        ensures next { next_key self.new ≡ T.key row + 1 }
    {
        self.next = row.key() + 1;
        self.rows.push(row);
    }

    // Puts a record in the place of the one with its key, if there is one.
    pub fn put(&mut self, row: T)
        ensures rows { rows self.new ≡ change T.key (λ _. row) (T.key row) (rows self.old) }
        ensures next { next_key self.new ≡ next_key self.old }
    {
        if let Some(at) = self.place(row.key()) {
            self.rows.put(at, row);
        }
    }

    // Changes the record with this key to what the step makes of it, if there is one. Its key stays.
    pub fn change<F: FnOnce(T) -> T>(&mut self, key: u64, step: F)
        requires callable { F.IsAlwaysCallable step }
        requires keys { (x y : T) → F.post step x y → T.key y ≡ T.key x }
        ensures rows { (f : T → T) → Computes (F.post step) f → rows self.new ≡ change T.key f key (rows self.old) }
        ensures next { next_key self.new ≡ next_key self.old }
    {
        if let Some(at) = self.place(key) {
            let row = self.as_slice()[at];
            self.rows.put(at, step(row));
        }
    }

    // Changes the record with this key to what the step makes of it, if there is one and the step keeps its key.
    pub fn turn<F: FnOnce(T) -> T>(&mut self, key: u64, step: F)
        requires { F.IsAlwaysCallable step }
        ensures rows { (f : T → T) → Computes (F.post step) f → ((x : T) → T.key (f x) ≡ T.key x) → rows self.new ≡ change T.key f key (rows self.old) }
        ensures next { next_key self.new ≡ next_key self.old }
    {
        if let Some(at) = self.place(key) {
            let turned = step(self.as_slice()[at]);
            if turned.key() == key {
                self.rows.put(at, turned);
            }
        }
    }

    // Removes the record with this key, if there is one.
    pub fn remove(&mut self, key: u64)
        ensures rows { rows self.new ≡ without T.key key (rows self.old) }
        ensures next { next_key self.new ≡ next_key self.old }
    {
        if let Some(at) = self.place(key) {
            let _ = self.rows.remove(at);
        }
    }

    // Changes each record to what the step makes of it. Its key stays.
    pub fn change_all<F: Fn(T) -> T>(&mut self, step: F)
        requires callable { F.IsAlwaysCallable step }
        requires keys { (x y : T) → F.post step x y → T.key y ≡ T.key x }
        ensures rows { AllZip (λ x y. F.post step x y) (rows self.old) (rows self.new) }
        ensures next { next_key self.new ≡ next_key self.old }
    {
        self.rows.change_all(step);
    }
}
