#![tactic(auto)]

// Theorems only: see specs/. The loading rules over places, which the check computes, and over the decoded macro are the same.
