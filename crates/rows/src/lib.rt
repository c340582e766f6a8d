// Where a guarded access goes: definitions in specs/, theorems in proofs/; no code of its own.
#![tactic(auto)]
