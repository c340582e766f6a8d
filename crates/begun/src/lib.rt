// Lists that the start call begins: definitions in specs/, theorems in proofs/; no code of its own.
#![tactic(auto)]
