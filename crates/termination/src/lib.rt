// A straight-through module ends: definitions in specs/, theorems in proofs/; no code of its own.
#![tactic(auto)]
