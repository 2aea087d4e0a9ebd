// The numbers of a run state in its 24,576 bytes (docs/STATE.md): reading them, and the stores by which a step moves a state in place.
// An activation is named by the place of its first byte, `frame`. What a store takes away it leaves 0, so that unused bytes are always 0.
// Kept (point 6): values are words and type bytes at places and no array of structs, since C lends the state's bytes and docs/STATE.md lays them out.
#![tactic(auto)]

mod phases;
mod reads;
mod writes;

pub use phases::{
    clear, condition, enter, finish, leave, let_hold, make_record, release, take_hold,
};
pub use reads::{cell_type, cell_word, field_type, field_word, operand_type, operand_word, wide};
pub use writes::{go_to, pop, push, put_byte, put_cell, put_field, put_operand, put_value};
