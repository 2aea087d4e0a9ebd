// Definitions only: see specs/. Every program of the subset is in order for the compiler.
#![tactic(auto)]
