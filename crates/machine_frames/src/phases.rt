// What changes a state as a whole: activations, records and holds more and less, and the phases of releasing and of the end.
ghost use Rattle.std.specs.Prelude.{◌≡◌, ◌+◌, ◌*◌, ◌≤◌, ◌<◌, length};
ghost use Rattle.std.proofs.lemmas.List.Edits.{sets};
ghost use Rattle.words.specs.Numbers.{byte_at, half_at};
ghost use Rattle.bytecode.specs.State.{zeros, state_length};
ghost use Rattle.machine_frames.specs.Bytes.{Framed, hold_taken, hold_let, entered, Left, Wiped, record_made, wiped_all, conditioned, finished, released};

use crate::reads::wide;
use crate::writes::put_byte;
use formats::state::*;

// A byte more than is cleared is never looked at: the loop has no exit of its own.
pub fn clear(state: &mut [u8], place: usize, count: usize)
    requires { place + count ≤ length state.old }
    ensures { state.new ≡ sets state.old place (zeros count) }
{
    for k in 0..count {
        state[place + k] = 0;
    }
}

// The h-th hold of all, and the activation's n-th.
pub fn take_hold(state: &mut [u8], frame: usize, g: u8)
    requires { (Framed state.old frame 0) × (half_at state.old 6 < 512) × (byte_at state.old (frame + 2) < 255) }
    ensures { state.new ≡ hold_taken state.old frame g }
{
    let h = words::half_at(state, HOLD_COUNT_AT);
    let n = state[frame + OWN_HOLD_COUNT_AT];
    put_byte(state, HOLDS_AT + (h as usize), g);
    words::put_half(state, HOLD_COUNT_AT, h + 1);
    put_byte(state, frame + OWN_HOLD_COUNT_AT, n + 1);
}

pub fn let_hold(state: &mut [u8], frame: usize)
    requires { (Framed state.old frame 0) × (0 < half_at state.old 6) × (half_at state.old 6 ≤ 512) × (0 < byte_at state.old (frame + 2)) }
    ensures { state.new ≡ hold_let state.old frame }
{
    let h = words::half_at(state, HOLD_COUNT_AT) - 1;
    let n = state[frame + OWN_HOLD_COUNT_AT] - 1;
    put_byte(state, HOLDS_AT + (h as usize), 0);
    words::put_half(state, HOLD_COUNT_AT, h);
    put_byte(state, frame + OWN_HOLD_COUNT_AT, n);
}

// Activation k, of body b at an address.
pub fn enter(state: &mut [u8], frame: usize, k: u8, b: u8, address: u16)
    requires { (Framed state.old frame 0) × (k < 255) }
    ensures { state.new ≡ entered state.old frame k b address }
{
    put_byte(state, frame, b);
    words::put_half(state, frame + ADDRESS_AT, address);
    put_byte(state, ACTIVATION_COUNT_AT, k + 1);
}

// So many cells are cleared without counting them.
const FEW_CELLS: usize = 8;

const FEW_CELL_WORDS: usize = WORD_BYTES * FEW_CELLS;

// An activation without operands. What it does not use is 0, so that most are cleared by three stores or four: clearing all bytes of one costs a call.
fn wipe_activation(state: &mut [u8], frame: usize)
    requires { Framed state.old frame 0 }
    ensures { Wiped state.old frame state.new }
{
    if state[frame + (CELL_TYPES_AT + FEW_CELLS)] != 0 {
        clear(state, frame, ACTIVATION_BYTES);
        return;
    }
    clear(state, frame, CELL_WORDS_AT);
    clear(state, frame + CELL_WORDS_AT, FEW_CELL_WORDS);
    clear(state, frame + CELL_TYPES_AT, FEW_CELLS);
}

pub fn leave(state: &mut [u8], frame: usize, k: u8)
    requires { Framed state.old frame 0 }
    ensures { Left state.old frame k state.new }
{
    wipe_activation(state, frame);
    put_byte(state, ACTIVATION_COUNT_AT, k);
}

// Record r, of class c, with no fields yet.
pub fn make_record(state: &mut [u8], r: u16, c: u8)
    requires { (length state.old ≡ state_length) × (r < 256) }
    ensures { state.new ≡ record_made state.old r c }
{
    put_byte(state, RECORDS_AT + RECORD_BYTES * (r as usize), c);
    words::put_half(state, RECORD_COUNT_AT, r + 1);
}

// All activations and all records.
fn wipe(state: &mut [u8])
    requires { (length state.old ≡ state_length) × (byte_at state.old 2 ≤ 32) × (half_at state.old 4 ≤ 256) }
    ensures { state.new ≡ wiped_all state.old }
{
    let a = wide(state[ACTIVATION_COUNT_AT]);
    let r = words::half_at(state, RECORD_COUNT_AT);
    clear(state, ACTIVATIONS_AT, ACTIVATION_BYTES * a);
    clear(state, RECORDS_AT, RECORD_BYTES * (r as usize));
}

// The holds stay where they are, to be released from the last on.
pub fn condition(state: &mut [u8], c: u8)
    requires { (length state.old ≡ state_length) × (byte_at state.old 2 ≤ 32) × (half_at state.old 4 ≤ 256) }
    ensures { state.new ≡ conditioned state.old c }
{
    wipe(state);
    put_byte(state, PHASE_AT, RELEASING);
    put_byte(state, CONDITION_AT, c);
    put_byte(state, ACTIVATION_COUNT_AT, 0);
    words::put_half(state, RECORD_COUNT_AT, 0);
}

pub fn finish(state: &mut [u8])
    requires { (length state.old ≡ state_length) × (byte_at state.old 2 ≤ 32) × (half_at state.old 4 ≤ 256) }
    ensures { state.new ≡ finished state.old }
{
    wipe(state);
    put_byte(state, PHASE_AT, ENDED);
    put_byte(state, ACTIVATION_COUNT_AT, 0);
    words::put_half(state, RECORD_COUNT_AT, 0);
}

// One hold of a releasing state, the last of h + 1.
pub fn release(state: &mut [u8], h: u16)
    requires { (length state.old ≡ state_length) × (h < 512) }
    ensures { state.new ≡ released state.old h }
{
    put_byte(state, HOLDS_AT + (h as usize), 0);
    words::put_half(state, HOLD_COUNT_AT, h);
}
