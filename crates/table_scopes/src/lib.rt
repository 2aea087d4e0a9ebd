// The names that stand in sight in a table: how many entries each part of it spans, the stack of names in lent numbers, and the heads that
// push their names on it and are judged.
#![tactic(auto)]

mod environment;
mod heads;
pub mod numbers;
mod spans;

pub use environment::{Definition, find, push};
pub use heads::{
    Labelled, enter, enter_loop, enter_procedure, enter_root, head, once, open, open_root,
};
pub use spans::{size_at, spanned};
