#![tactic(auto)]

// Definitions and laws only: see specs/. Choices, options and lists as the other definitions write them, and the laws of tests, options and lists
// that proofs of every stage cite.
