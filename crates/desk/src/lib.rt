// The C interface: thin wrappers over the library, their answers packed into one number. include/desk.h declares them for C.
#![tactic(auto)]

mod check;
mod compiler;
mod lent;
mod load;

pub use check::cue_check;
pub use compiler::cue_compile;
pub use lent::{cue_play, cue_run, cue_start};
pub use load::cue_load;
