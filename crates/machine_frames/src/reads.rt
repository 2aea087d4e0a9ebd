// The word and the type byte of a value: an operand, counted from the bottom, a cell, and a field of a record.
ghost use Rattle.std.specs.Prelude.{◌≡◌, ◌+◌, ◌*◌, ◌≤◌, ◌<◌, length};
ghost use Rattle.words.specs.Numbers.{byte_at, word_at};
ghost use Rattle.machine_frames.specs.Bytes.{Framed, Recorded};
ghost use Rattle.bytecode.specs.State.{cell_words_at, field_words_at, field_types_at, cell_types_at, operand_types_at, operand_words_at, record_length, records_at};

use formats::state::*;

// A row of values: how far behind the place of an activation or a record its words begin, and its type bytes.
#[derive(Clone, Copy)]
pub(crate) struct Row {
    pub words: usize,
    pub types: usize,
}

pub(crate) const OPERANDS: Row = Row {
    words: OPERAND_WORDS_AT,
    types: OPERAND_TYPES_AT,
};

pub(crate) const CELLS: Row = Row {
    words: CELL_WORDS_AT,
    types: CELL_TYPES_AT,
};

pub(crate) const FIELDS: Row = Row {
    words: FIELD_WORDS_AT,
    types: FIELD_TYPES_AT,
};

fn word_in(state: &[u8], start: usize, row: Row, k: usize) -> u32
    requires { start + (row.words + 4 * k) + 4 ≤ length state.now }
    ensures { result ≡ word_at state.now (start + (row.words + 4 * k)) }
{
    words::word_at(state, start + (row.words + WORD_BYTES * k))
}

fn type_in(state: &[u8], start: usize, row: Row, k: usize) -> u8
    requires { start + (row.types + k) < length state.now }
    ensures { result ≡ byte_at state.now (start + (row.types + k)) }
{
    state[start + (row.types + k)]
}

// Where a record stands.
pub(crate) fn record_at(r: usize) -> usize
    requires { r < 256 }
    ensures { result ≡ records_at + record_length * r }
{
    RECORDS_AT + RECORD_BYTES * r
}

pub fn wide(x: u8) -> usize
    ensures { (result ≡ x) × (result < 256) }
{
    x as usize
}

pub fn operand_word(state: &[u8], frame: usize, k: usize) -> u32
    requires { Framed state.now frame k }
    ensures { result ≡ word_at state.now (frame + (operand_words_at + 4 * k)) }
{
    word_in(state, frame, OPERANDS, k)
}

pub fn operand_type(state: &[u8], frame: usize, k: usize) -> u8
    requires { Framed state.now frame k }
    ensures { result ≡ byte_at state.now (frame + (operand_types_at + k)) }
{
    type_in(state, frame, OPERANDS, k)
}

pub fn cell_word(state: &[u8], frame: usize, j: usize) -> u32
    requires { Framed state.now frame j }
    ensures { result ≡ word_at state.now (frame + (cell_words_at + 4 * j)) }
{
    word_in(state, frame, CELLS, j)
}

pub fn cell_type(state: &[u8], frame: usize, j: usize) -> u8
    requires { Framed state.now frame j }
    ensures { result ≡ byte_at state.now (frame + (cell_types_at + j)) }
{
    type_in(state, frame, CELLS, j)
}

pub fn field_word(state: &[u8], r: usize, x: usize) -> u32
    requires { Recorded state.now r x }
    ensures { result ≡ word_at state.now (records_at + record_length * r + (field_words_at + 4 * x)) }
{
    word_in(state, record_at(r), FIELDS, x)
}

pub fn field_type(state: &[u8], r: usize, x: usize) -> u8
    requires { Recorded state.now r x }
    ensures { result ≡ byte_at state.now (records_at + record_length * r + (field_types_at + x)) }
{
    type_in(state, record_at(r), FIELDS, x)
}
