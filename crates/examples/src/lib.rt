// Worked cases, computed from the definitions: document 01's C1 to C12, a list of calls of module M, and modules that break a rule and escape.
// No code of its own.
#![tactic(auto)]
