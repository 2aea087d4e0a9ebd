// The ops, one function each, on the bytes of a run state. Each has the place of the top activation (`frame`), the number of its operands
// (`depth`) and its address.
// No function tests what the loading check promises: it is shown where the op is dispatched.
#![tactic(auto)]

mod calls;
mod events;
mod holds;
mod jumps;
mod moves;
mod operands;
mod operators;
mod records;

pub use calls::{op_call, op_return};
pub use events::{op_assert, op_fader, op_set};
pub use holds::{op_end, op_hold, op_release};
pub use jumps::{op_go, op_unless};
pub use operands::{op_condition, op_load, op_operate, op_push, op_store, owner};
pub use operators::{Typed, binary};
pub use records::{op_get_field, op_make, op_put_field};

#[derive(Drop)]
pub enum Event {
    Set(u16, u8),
    Hold(u8),
    Release(u8),
}

// What a step gives: nothing, a reading taken, an event, or the end by 0 or a condition.
#[derive(Drop)]
pub enum Out {
    Goes,
    Reads,
    Gives(Event),
    Ends(u8),
}
