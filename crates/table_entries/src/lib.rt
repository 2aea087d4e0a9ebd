// An entry of a table: 8 bytes, its kind (u16), a (u16) and b (32 bits). Whoever reads one reads it here, by its place; the first entry of a
// part of the table is at place 0.
#![tactic(auto)]

ghost use Rattle.std.specs.Prelude.{◌≡◌, ◌+◌, ◌*◌, ◌≤◌, length};
ghost use Rattle.words.specs.Numbers.{half_at, word_at, integer_of};
ghost use Rattle.table_entries.specs.Faults.{refusal_of};

use formats::entries::*;

// What is wrong with a table, and at which entry: how many entries stand before it.
#[derive(Clone, Copy)]
pub enum Fault {
    // 1: empty, over 16,384 bytes, or not in eights
    Misshapen,
    // 2: does not read as one tree within the layout
    Unread(usize),
    // 3: name undefined, or twice in a block
    Unnamed(usize),
    // 4: wrong type, sort of name or operand count
    Mistyped(usize),
    // 5: label out of a goto's reach
    OutOfReach(usize),
    // 6: over a body's limits
    OverLimits(usize),
}

impl Fault {
    // the refusal's number
    pub fn number(self) -> u8
        ensures { result ≡ (refusal_of self).number }
    {
        match self {
            Fault::Misshapen => 1,
            Fault::Unread(_) => 2,
            Fault::Unnamed(_) => 3,
            Fault::Mistyped(_) => 4,
            Fault::OutOfReach(_) => 5,
            Fault::OverLimits(_) => 6,
        }
    }

    // the refusal's place
    pub fn place(self) -> usize
        ensures { result ≡ (refusal_of self).place }
    {
        match self {
            Fault::Misshapen => 0,
            Fault::Unread(place)
            | Fault::Unnamed(place)
            | Fault::Mistyped(place)
            | Fault::OutOfReach(place)
            | Fault::OverLimits(place) => place,
        }
    }
}

pub fn kind_at(table: &[u8], place: usize) -> u16
    requires { 8 * (place + 1) ≤ length table.now }
    ensures { result ≡ half_at table.now (8 * place) }
{
    words::half_at(table, ENTRY_BYTES * place)
}

pub fn a_at(table: &[u8], place: usize) -> u16
    requires { 8 * (place + 1) ≤ length table.now }
    ensures { result ≡ half_at table.now (8 * place + 2) }
{
    words::half_at(table, ENTRY_BYTES * place + A_AT)
}

// b as most kinds have it, a number.
pub fn b_at(table: &[u8], place: usize) -> u32
    requires { 8 * (place + 1) ≤ length table.now }
    ensures { result ≡ word_at table.now (8 * place + 4) }
{
    words::word_at(table, ENTRY_BYTES * place + B_AT)
}

// b as the layout has it, signed.
pub fn signed_b_at(table: &[u8], place: usize) -> i32
    requires { 8 * (place + 1) ≤ length table.now }
    ensures { result ≡ integer_of (word_at table.now (8 * place + 4)) }
{
    words::integer_at(table, ENTRY_BYTES * place + B_AT)
}
