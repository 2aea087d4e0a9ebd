#![tactic(auto)]

// Theorems only: see specs/. A macro that passes the loading check never leaves the plain machine stuck.
