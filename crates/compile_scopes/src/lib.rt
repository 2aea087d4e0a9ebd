// Definitions and laws only: see specs/. The names in sight of the compiler's walkers stand for what the definition of the code finds.
#![tactic(auto)]
