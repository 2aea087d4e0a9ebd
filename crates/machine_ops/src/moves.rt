// The loops: operands moved into the cells of a new activation or the fields of a new record, operands dropped, cells begun.
ghost use Rattle.std.specs.Prelude.{◌≡◌, ◌+◌, ◌*◌, ◌-◌, ◌≤◌, length};
ghost use Rattle.machine_ops.specs.Moves.{dropped, begun, filled};
ghost use Rattle.bytecode.specs.State.{state_length};

use formats::state::*;

// The topmost `count` of the operands.
pub fn drop_operands(state: &mut [u8], frame: usize, depth: usize, count: usize)
    requires { (length state.old ≡ state_length) × (frame ≤ 10200) × (depth ≤ 32) × (count ≤ depth) }
    ensures { state.new ≡ dropped state.old frame depth count }
{
    for k in (depth - count..depth).rev() {
        machine_frames::pop(state, frame, k);
    }
}

// Operands from k on into the first of a row of values, whose words begin at `words` and type bytes at `types`.
pub fn move_operands(
    state: &mut [u8],
    frame: usize,
    k: usize,
    words: usize,
    types: usize,
    count: usize,
)
    requires { (length state.old ≡ state_length) × (frame ≤ 10200) × (k + count ≤ 32) × (words + 4 * count ≤ state_length) × (types + count ≤ state_length) }
    ensures { state.new ≡ filled state.old frame k words types count }
{
    for j in 0..count {
        let w = machine_frames::operand_word(state, frame, k + j);
        let t = machine_frames::operand_type(state, frame, k + j);
        machine_frames::put_value(state, words + WORD_BYTES * j, types + j, w, t);
    }
}

// The cells from p up to c of the activation at g: 0, false, #0 or null of the types whose bytes stand at `place` in the macro.
pub fn begin_cells(code: &[u8], place: usize, state: &mut [u8], g: usize, p: usize, c: usize)
    requires { (length state.old ≡ state_length) × (g ≤ 10200) × (p ≤ c) × (c ≤ 32) × (place + c ≤ length code.now) }
    ensures { state.new ≡ begun code.now place state.old g p (c - p) }
{
    for j in p..c {
        machine_frames::put_cell(state, g, j, 0, code[place + j]);
    }
}
