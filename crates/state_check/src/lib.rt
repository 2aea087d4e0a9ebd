// Whether bytes hold a sound state of a macro (refusals 8, 9 and 10): the tests that need no state found by the loading rules, and all tests in one
// walk of the macro.
#![tactic(auto)]

mod inspection;
mod tests;

pub use inspection::{inspect, load};
