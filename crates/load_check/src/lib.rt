// The loading check: refusals 8 and 9, from a macro's bytes alone. This crate is all that the machine knows of it: the verdict, where things stand
// in a macro whose records read, and the state found at each address. The walk over the addresses, and with it `load`, is in `state_check`.
#![tactic(auto)]

mod root;

pub use load_records::{bad_head, no_type, scan};
pub use load_rules::{
    Located, body_at, class_at, first_body, first_shape, found_at, go_on, instruction_at, is_bad,
    next_body, shape_after,
};
pub use root::root_at;
