#![tactic(auto)]

// Theorems only: see specs/. What a compiled macro that passes the loading check promises.
