// The first fault of a table that reads, in postorder (refusals 3 to 5): the walkers of statements and expressions, and the root's declarations.
#![tactic(auto)]

mod faults;
mod walkers;

pub use faults::first_fault;
