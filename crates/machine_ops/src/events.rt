// Ops 15, 16 and 19: set, fader, assert.
ghost use Rattle.std.specs.Prelude.{◌≡◌, ◌≤◌, ◌<◌, length};
ghost use Rattle.bytecode.specs.Machine.{do_set, do_fader, do_assert};
ghost use Rattle.bytecode.specs.Runs.{bank_of};
ghost use Rattle.machine_ops.specs.Acts.{Room, Tells};

use crate::operands::op_condition;
use crate::{Event, Out};
use formats::compiled::*;
use formats::limits::*;

// As a word's number.
const LAST_FADER: u32 = FADERS as u32;

// An integer out of range as a word is too large, a negative one too.
pub fn op_set(state: &mut [u8], frame: usize, depth: usize, address: u16) -> Out
    requires { (Room state.old frame depth address) × (2 ≤ depth) }
    ensures { Tells (λ m h. do_set h) state.old frame depth address state.new result }
{
    let k = depth - 1;
    let j = depth - 2;
    let y = machine_frames::operand_word(state, frame, k);
    let x = machine_frames::operand_word(state, frame, j);
    if x < 1 {
        return op_condition(state, frame, depth, address, values::OUT_OF_RANGE);
    }
    if CHANNELS < x {
        return op_condition(state, frame, depth, address, values::OUT_OF_RANGE);
    }
    if MAX_LEVEL < y {
        return op_condition(state, frame, depth, address, values::OUT_OF_RANGE);
    }
    machine_frames::pop(state, frame, k);
    machine_frames::pop(state, frame, j);
    machine_frames::go_to(state, frame, address + 1);
    Out::Gives(Event::Set(x as u16, y as u8))
}

// The n-th of the 64 readings.
pub fn op_fader(state: &mut [u8], frame: usize, depth: usize, address: u16, readings: &[u8]) -> Out
    requires { (Room state.old frame depth address) × (0 < depth) × (length readings.now ≡ 64) }
    ensures { Tells (λ m h. do_fader (bank_of readings.now) h) state.old frame depth address state.new result }
{
    let k = depth - 1;
    let x = machine_frames::operand_word(state, frame, k);
    if x < 1 {
        return op_condition(state, frame, depth, address, values::OUT_OF_RANGE);
    }
    if LAST_FADER < x {
        return op_condition(state, frame, depth, address, values::OUT_OF_RANGE);
    }
    let v = readings[(x as usize) - 1];
    machine_frames::put_operand(state, frame, k, v as u32, TYPE_INTEGER);
    machine_frames::go_to(state, frame, address + 1);
    Out::Reads
}

pub fn op_assert(state: &mut [u8], frame: usize, depth: usize, address: u16) -> Out
    requires { (Room state.old frame depth address) × (0 < depth) }
    ensures { Tells (λ m h. do_assert h) state.old frame depth address state.new result }
{
    let k = depth - 1;
    let w = machine_frames::operand_word(state, frame, k);
    if w == 0 {
        return op_condition(state, frame, depth, address, values::ASSERT_FALSE);
    }
    machine_frames::pop(state, frame, k);
    machine_frames::go_to(state, frame, address + 1);
    Out::Goes
}
