// Demand 3: what an accepted module can do in every list of calls. Definitions in specs/, theorems in proofs/; no code of its own.
#![tactic(auto)]
