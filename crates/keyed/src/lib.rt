// Lists of records in ascending order of a key: the definitions stand in specs/, the lemmas in proofs/; and the table that
// holds such a list.
#![tactic(auto)]

ghost use Rattle.std.specs.Prelude.{ℕ};
ghost use Rattle.keyed.specs.Laws.{Laws};

pub mod record;
pub mod table;

// Stands for the laws of keyed lists: whatever the record and its key, what is done at the place
// of a key is what is done by the key, and the order stays.
pub fn laws<T>()
    ensures { (key : T → ℕ) → Laws key }
{}
