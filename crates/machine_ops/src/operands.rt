// Ops 1 to 7: values onto the working stack, cells, operators.
ghost use Rattle.std.specs.Prelude.{◌≡◌, ◌≤◌, ◌<◌};
ghost use Rattle.std.proofs.Math.Option.{some};
ghost use Rattle.bytecode.specs.Instructions.{Owner, owner_of, operator_of};
ghost use Rattle.values.specs.Operators.{Operator, Unary, unary, unary_of};
ghost use Rattle.bytecode.specs.Machine.{do_load, do_store, do_operate, condition};
ghost use Rattle.machine_ops.specs.Acts.{Room, Tells, Pushes};

use crate::{Out, operators};
use formats::state::*;

// Every condition goes on by releasing; so does op 20, by its a.
pub fn op_condition(state: &mut [u8], frame: usize, depth: usize, address: u16, c: u8) -> Out
    requires { Room state.old frame depth address }
    ensures { Tells (λ m h. condition c h) state.old frame depth address state.new result }
{
    machine_frames::condition(state, c);
    Out::Goes
}

pub fn op_push(state: &mut [u8], frame: usize, depth: usize, address: u16, w: u32, t: u8) -> Out
    requires { (Room state.old frame depth address) × (depth < 32) }
    ensures { Pushes w t state.old frame depth address state.new result }
{
    machine_frames::push(state, frame, depth, w, t);
    machine_frames::go_to(state, frame, address + 1);
    Out::Goes
}

// The activation whose cells are meant: a 0 the top itself, 1 the root.
pub fn owner(frame: usize, a: u8) -> usize
    requires { frame ≤ 10200 }
    ensures { (result ≤ 10200) × (a ≡ 0 → result ≡ frame) × (a ≡ 1 → result ≡ 32) }
{
    if a == 0 {
        return frame;
    }
    ACTIVATIONS_AT
}

pub fn op_load(state: &mut [u8], frame: usize, depth: usize, address: u16, a: u8, b: usize) -> Out
    requires { (Room state.old frame depth address) × (depth < 32) × (b < 32) }
    ensures { (o : Owner) → owner_of a ≡ some o → Tells (λ m h. do_load m o b h) state.old frame depth address state.new result }
{
    let g = owner(frame, a);
    let w = machine_frames::cell_word(state, g, b);
    let t = machine_frames::cell_type(state, g, b);
    op_push(state, frame, depth, address, w, t)
}

pub fn op_store(state: &mut [u8], frame: usize, depth: usize, address: u16, a: u8, b: usize) -> Out
    requires { (Room state.old frame depth address) × (0 < depth) × (b < 32) }
    ensures { (o : Owner) → owner_of a ≡ some o → Tells (λ m h. do_store m o b h) state.old frame depth address state.new result }
{
    let k = depth - 1;
    let w = machine_frames::operand_word(state, frame, k);
    let t = machine_frames::operand_type(state, frame, k);
    let g = owner(frame, a);
    machine_frames::put_cell(state, g, b, w, t);
    machine_frames::pop(state, frame, k);
    machine_frames::go_to(state, frame, address + 1);
    Out::Goes
}

fn op_unary(state: &mut [u8], frame: usize, depth: usize, address: u16, a: u8) -> Out
    requires { (Room state.old frame depth address) × (0 < depth) }
    ensures { (o : Unary) → unary_of a ≡ some o → Tells (λ m h. do_operate (unary o) h) state.old frame depth address state.new result }
{
    let k = depth - 1;
    let x = machine_frames::operand_word(state, frame, k);
    let t = machine_frames::operand_type(state, frame, k);
    match operators::unary(a, t, x) {
        Ok(v) => {
            machine_frames::put_operand(state, frame, k, v.word, v.ty);
            machine_frames::go_to(state, frame, address + 1);
            Out::Goes
        }
        Err(c) => op_condition(state, frame, depth, address, c.number()),
    }
}

// The operators of one operand, which have the numbers from 20; those of two are done where their operands are at hand.
pub fn op_operate(state: &mut [u8], frame: usize, depth: usize, address: u16, a: u8) -> Out
    requires { (Room state.old frame depth address) × (0 < depth) × (20 ≤ a) }
    ensures { (o : Operator) → operator_of a ≡ some o → Tells (λ m h. do_operate o h) state.old frame depth address state.new result }
{
    op_unary(state, frame, depth, address, a)
}
