// Ops 10 and 11. A call waits at its address, its arguments taken, until a return drops the activation above it.
ghost use Rattle.std.specs.Prelude.{◌≡◌, ◌≤◌, ◌<◌};
ghost use Rattle.words.specs.Numbers.{byte_at};
ghost use Rattle.load_places.specs.Records.{bodies, body_place};
ghost use Rattle.bytecode.specs.Machine.{do_call, do_return};
ghost use Rattle.machine_ops.specs.Acts.{Room, Tells};
ghost use Rattle.machine_ops.specs.Moves.{TellsOf, given, CallRoom, ReturnRoom, Entered};

use crate::operands::op_condition;
use crate::{Out, moves};
use formats::compiled::*;
use formats::limits::*;
use formats::state::*;

// A new activation of a body, whose record stands at `place`, above the top.
fn enter_body(code: &[u8], place: usize, state: &mut [u8], frame: usize, depth: usize, body: u8)
    requires { CallRoom code.now place state.old frame depth }
    ensures { Entered code.now place state.old frame depth body state.new }
{
    let k = state[ACTIVATION_COUNT_AT];
    let i = words::half_at(code, place + FIRST_AT);
    let p = machine_frames::wide(code[place + PARAMETER_COUNT_AT]);
    let c = machine_frames::wide(code[place + CELL_COUNT_AT]);
    let g = frame + ACTIVATION_BYTES;
    machine_frames::enter(state, g, k, body, i);
    moves::move_operands(
        state,
        frame,
        depth - p,
        g + CELL_WORDS_AT,
        g + CELL_TYPES_AT,
        p,
    );
    moves::drop_operands(state, frame, depth, p);
    moves::begin_cells(code, place + BODY_BYTES, state, g, p, c);
}

// The count's byte when no activation more is let in.
const FULL: u8 = MAX_ACTIVATIONS as u8;

// The 33rd activation is not let in.
pub fn op_call(
    code: &[u8],
    place: usize,
    state: &mut [u8],
    frame: usize,
    depth: usize,
    address: u16,
    body: u8,
) -> Out
    requires { (Room state.old frame depth address) × (place ≡ body_place code.now body) × (body < bodies code.now) × (given code.now place ≤ depth)
        × (byte_at state.old 2 < 32 → CallRoom code.now place state.old frame depth) }
    ensures { TellsOf code.now (λ m h. do_call m body h) state.old frame depth address state.new result }
{
    if state[ACTIVATION_COUNT_AT] < FULL {
        enter_body(code, place, state, frame, depth, body);
        return Out::Goes;
    }
    op_condition(state, frame, depth, address, values::TOO_MANY_ACTIVATIONS)
}

fn return_nothing(state: &mut [u8], frame: usize, depth: usize, address: u16) -> Out
    requires { (Room state.old frame depth address) × (ReturnRoom state.old frame depth) × (depth ≡ 0) }
    ensures { Tells (λ m h. do_return m h) state.old frame depth address state.new result }
{
    let k = state[ACTIVATION_COUNT_AT] - 1;
    let g = frame - ACTIVATION_BYTES;
    let a = words::half_at(state, g + ADDRESS_AT);
    machine_frames::leave(state, frame, k);
    machine_frames::go_to(state, g, a + 1);
    Out::Goes
}

// The result goes onto the operands of the activation below, which goes on behind its call.
fn return_value(state: &mut [u8], frame: usize, depth: usize, address: u16) -> Out
    requires { (Room state.old frame depth address) × (ReturnRoom state.old frame depth) × (depth ≡ 1) }
    ensures { Tells (λ m h. do_return m h) state.old frame depth address state.new result }
{
    let k = state[ACTIVATION_COUNT_AT] - 1;
    let g = frame - ACTIVATION_BYTES;
    let a = words::half_at(state, g + ADDRESS_AT);
    let d = machine_frames::wide(state[g + OPERAND_COUNT_AT]);
    let w = machine_frames::operand_word(state, frame, 0);
    let t = machine_frames::operand_type(state, frame, 0);
    machine_frames::pop(state, frame, 0);
    machine_frames::leave(state, frame, k);
    machine_frames::push(state, g, d, w, t);
    machine_frames::go_to(state, g, a + 1);
    Out::Goes
}

pub fn op_return(state: &mut [u8], frame: usize, depth: usize, address: u16) -> Out
    requires { (Room state.old frame depth address) × (ReturnRoom state.old frame depth) }
    ensures { Tells (λ m h. do_return m h) state.old frame depth address state.new result }
{
    if depth == 0 {
        return return_nothing(state, frame, depth, address);
    }
    return_value(state, frame, depth, address)
}
