#![tactic(auto)]

// Definitions and laws only: see specs/. All bodies of a program, one after the other: what their walkers ask, and what they come to.
