// The operators of kinds 48 and 49, each equal to its definition in specs/Arithmetic.antt and specs/Values.antt.
// Equality on logical values, bits and references is `==` on their words and has no function here.
#![tactic(auto)]

mod bits;
mod conditions;
mod integers;

ghost use Rattle.std.specs.Prelude.{◌≡◌, not, ◌&&◌, ◌||◌};

pub use bits::{and_bits, not_bits, or_bits, shift_left, shift_right};
pub use conditions::{
    ASSERT_FALSE, CASE_INDEX, Condition, FIELD_OF_NULL, OUT_OF_RANGE, OVERFLOW, STEP_ZERO,
    TOO_MANY_ACTIVATIONS, TOO_MANY_RECORDS, ZERO_DIVISOR, is_condition,
};
pub use integers::{
    absolute, add, at_least, at_most, divide, equal, greater, less, multiply, negate, remainder,
    subtract, unequal,
};

// Why a table, a macro, a state or a bank of readings was refused: the refusal's number, and its place, an entry, the index of a record or an
// address; 0 where it has none.
#[derive(Clone, Copy)]
pub struct Refusal {
    pub number: u8,
    pub place: u32,
}

// Both operands are at hand, so neither test is skipped.
pub fn both(a: bool, b: bool) -> bool
    ensures { result ≡ (a && b) }
{
    a & b
}

pub fn either(a: bool, b: bool) -> bool
    ensures { result ≡ (a || b) }
{
    a | b
}

pub fn complement(a: bool) -> bool
    ensures { result ≡ not a }
{
    !a
}
