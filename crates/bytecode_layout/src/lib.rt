#![tactic(auto)]

// Laws only: see specs/. Where the parts of a run state stand in its bytes.
