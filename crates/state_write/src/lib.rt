// The bytes of a state, written: a fresh state over lent bytes, and zeros wherever a sound state uses no byte.
#![tactic(auto)]

mod clearing;
mod fresh;

pub use clearing::clear;
pub use fresh::write_fresh;
