// Definitions and laws only: see specs/. What the compiler's walkers ask and answer at each entry.
#![tactic(auto)]
