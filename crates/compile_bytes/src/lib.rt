// Definitions and laws only: see specs/. What the compiler's cursor leaves in the output.
#![tactic(auto)]
