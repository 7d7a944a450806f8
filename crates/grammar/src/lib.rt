// What the bytes of a script say: definitions alone. The code that reads and prints scripts cites them.
#![tactic(auto)]
