#![tactic(auto)]

// Theorems only: see specs/. The demands on the whole, each a statement that is read without its proof.
