#![tactic(auto)]

// Definitions only: see specs/. The tests of a run state's bytes against a macro's, in the form that the machine computes them.
