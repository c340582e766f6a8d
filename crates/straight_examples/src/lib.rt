// Worked cases of the straight-through profile, computed from the definitions: verdicts, and modules at and past the bound. No code of its own.
#![tactic(auto)]
