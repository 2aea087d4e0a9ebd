// Definitions and laws only: see specs/. Statements and expressions by the shape of what is below their entries, and the root: what the walkers of
// a table ask and answer. The check of names stands on it, and so does the compiler on bytes.
#![tactic(auto)]
