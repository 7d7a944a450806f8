// How the supervision tree grows: the definitions stand in specs/, the lemmas in proofs/.
#![tactic(auto)]

ghost use Rattle.lineage.specs.Family.{Family};
ghost use Rattle.growth.specs.Grows.{Grows};

// Stands for how each operation changes the next serial, the open contexts and the seats, whatever the tree.
fn grows()
    ensures { (F : Family) → Grows F }
{}
