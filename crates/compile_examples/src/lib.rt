// Examples only: see specs/. Tables compiled, judged and run by evaluation.
#![tactic(auto)]
