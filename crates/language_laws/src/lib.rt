#![tactic(auto)]

// Theorems only: see specs/. Which tables are programs and what a refusal says; how executions end, and that every way out of a block releases its
// holds.
