// Values stored in an activation or in a record, and the address at which an activation goes on.
ghost use Rattle.std.specs.Prelude.{◌≡◌, ◌+◌, ◌*◌, ◌≤◌, ◌<◌, [], ◌∷◌, length};
ghost use Rattle.std.proofs.lemmas.List.Edits.{sets};
ghost use Rattle.machine_frames.specs.Bytes.{Framed, Recorded, valued, went_to, operand_set, cell_set, field_set, pushed, popped};

use crate::reads::{CELLS, FIELDS, OPERANDS, Row, record_at};
use formats::state::*;

pub fn put_byte(state: &mut [u8], place: usize, v: u8)
    requires { place < length state.old }
    ensures { state.new ≡ sets state.old place (v ∷ []) }
{
    state[place] = v;
}

// A word at p and its type byte at q.
pub fn put_value(state: &mut [u8], p: usize, q: usize, w: u32, t: u8)
    requires { (p + 4 ≤ length state.old) × (q < length state.old) }
    ensures { state.new ≡ valued state.old p q w t }
{
    words::put_word(state, p, w);
    state[q] = t;
}

pub fn go_to(state: &mut [u8], frame: usize, address: u16)
    requires { Framed state.old frame 0 }
    ensures { state.new ≡ went_to state.old frame address }
{
    words::put_half(state, frame + ADDRESS_AT, address);
}

fn put_in(state: &mut [u8], start: usize, row: Row, k: usize, w: u32, t: u8)
    requires { (start + (row.words + 4 * k) + 4 ≤ length state.old) × (start + (row.types + k) < length state.old) }
    ensures { state.new ≡ valued state.old (start + (row.words + 4 * k)) (start + (row.types + k)) w t }
{
    put_value(
        state,
        start + (row.words + WORD_BYTES * k),
        start + (row.types + k),
        w,
        t,
    );
}

pub fn put_operand(state: &mut [u8], frame: usize, k: usize, w: u32, t: u8)
    requires { Framed state.old frame k }
    ensures { state.new ≡ operand_set state.old frame k w t }
{
    put_in(state, frame, OPERANDS, k, w, t);
}

pub fn put_cell(state: &mut [u8], frame: usize, j: usize, w: u32, t: u8)
    requires { Framed state.old frame j }
    ensures { state.new ≡ cell_set state.old frame j w t }
{
    put_in(state, frame, CELLS, j, w, t);
}

pub fn put_field(state: &mut [u8], r: usize, x: usize, w: u32, t: u8)
    requires { Recorded state.old r x }
    ensures { state.new ≡ field_set state.old r x w t }
{
    put_in(state, record_at(r), FIELDS, x, w, t);
}

// Onto `depth` operands.
pub fn push(state: &mut [u8], frame: usize, depth: usize, w: u32, t: u8)
    requires { Framed state.old frame depth }
    ensures { state.new ≡ pushed state.old frame depth w t }
{
    put_operand(state, frame, depth, w, t);
    state[frame + OPERAND_COUNT_AT] = (depth + 1) as u8;
}

// The last of `depth` + 1 operands.
pub fn pop(state: &mut [u8], frame: usize, depth: usize)
    requires { Framed state.old frame depth }
    ensures { state.new ≡ popped state.old frame depth }
{
    put_operand(state, frame, depth, 0, 0);
    state[frame + OPERAND_COUNT_AT] = depth as u8;
}
