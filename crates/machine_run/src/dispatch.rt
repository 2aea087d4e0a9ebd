// The op of a number, but for operators of two operands. What each asks is shown here, from the loading check's promise.
ghost use Rattle.std.specs.Prelude.{◌≡◌, ◌≤◌, length};
ghost use Rattle.bytecode.specs.Machine.{do_call, do_make};
ghost use Rattle.machine_ops.specs.Acts.{Room};
ghost use Rattle.machine_ops.specs.Moves.{TellsOf};
ghost use Rattle.load_check.specs.Lookups.{Bodied, Classed};
ghost use Rattle.machine_run.specs.Held.{Poised, Acts};

use formats::compiled::*;
use machine_ops::Out;

// Op 10: the body's record, then the call.
fn call(
    code: &[u8],
    bodies: &[u32],
    state: &mut [u8],
    readings: &[u8],
    frame: usize,
    depth: usize,
    address: u16,
    a: u8,
    b: u32,
) -> Out
    requires { (Room state.old frame depth address) × (Bodied code.now bodies.now) × (Poised code.now readings.now 10 a b state.old frame depth address) }
    ensures { TellsOf code.now (λ m h. do_call m b h) state.old frame depth address state.new result }
{
    let q = load_check::body_at(code, bodies, b as usize);
    machine_ops::op_call(code, q, state, frame, depth, address, b as u8)
}

// Op 12: the class's record, then the making.
fn make(
    code: &[u8],
    classes: &[u32],
    state: &mut [u8],
    readings: &[u8],
    frame: usize,
    depth: usize,
    address: u16,
    a: u8,
    b: u32,
) -> Out
    requires { (Room state.old frame depth address) × (Classed code.now classes.now) × (Poised code.now readings.now 12 a b state.old frame depth address) }
    ensures { TellsOf code.now (λ m h. do_make m a h) state.old frame depth address state.new result }
{
    let q = load_check::class_at(code, classes, machine_frames::wide(a));
    machine_ops::op_make(code, q, state, frame, depth, address, a)
}

// Kept (point 7): one `match` on the op and no table of functions: a closed list, and each arm hands over just what its op takes.
pub fn dispatch(
    code: &[u8],
    bodies: &[u32],
    classes: &[u32],
    state: &mut [u8],
    readings: &[u8],
    frame: usize,
    depth: usize,
    address: u16,
    op: u8,
    a: u8,
    b: u32,
) -> Out
    requires { (Room state.old frame depth address) × (Bodied code.now bodies.now) × (Classed code.now classes.now) × (length readings.now ≡ 64)
        × (Poised code.now readings.now op a b state.old frame depth address) × (op ≡ 7 → 20 ≤ a) }
    ensures { Acts code.now readings.now op a b state.old frame depth address state.new result }
{
    match op {
        OP_END => machine_ops::op_end(state, frame, depth, address),
        OP_INTEGER => machine_ops::op_push(state, frame, depth, address, b, TYPE_INTEGER),
        OP_LOGICAL => machine_ops::op_push(state, frame, depth, address, b, TYPE_LOGICAL),
        OP_BITS => machine_ops::op_push(state, frame, depth, address, b, TYPE_BITS),
        OP_NULL => machine_ops::op_push(state, frame, depth, address, 0, TYPE_CLASS + a),
        OP_LOAD => machine_ops::op_load(state, frame, depth, address, a, b as usize),
        OP_STORE => machine_ops::op_store(state, frame, depth, address, a, b as usize),
        OP_OPERATOR => machine_ops::op_operate(state, frame, depth, address, a),
        OP_GO => machine_ops::op_go(state, frame, depth, address, b as u16),
        OP_UNLESS => machine_ops::op_unless(state, frame, depth, address, b as u16),
        OP_CALL => call(code, bodies, state, readings, frame, depth, address, a, b),
        OP_RETURN => machine_ops::op_return(state, frame, depth, address),
        OP_MAKE => make(code, classes, state, readings, frame, depth, address, a, b),
        OP_GET_FIELD => machine_ops::op_get_field(state, frame, depth, address, a, b as usize),
        OP_PUT_FIELD => machine_ops::op_put_field(state, frame, depth, address, a, b as usize),
        OP_SET => machine_ops::op_set(state, frame, depth, address),
        OP_FADER => machine_ops::op_fader(state, frame, depth, address, readings),
        OP_HOLD => machine_ops::op_hold(state, frame, depth, address, b as u8),
        OP_RELEASE => machine_ops::op_release(state, frame, depth, address),
        OP_ASSERT => machine_ops::op_assert(state, frame, depth, address),
        _ => machine_ops::op_condition(state, frame, depth, address, a),
    }
}
