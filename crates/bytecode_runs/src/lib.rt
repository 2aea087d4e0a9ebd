// Theorems only: see specs/. Start and runs on lent bytes are those of the plain machine.
#![tactic(auto)]
