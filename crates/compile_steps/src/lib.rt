// Definitions and laws only: see specs/. What the compiler's walkers are asked below an entry, and what they have done of it.
#![tactic(auto)]
