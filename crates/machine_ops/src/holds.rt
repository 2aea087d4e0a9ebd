// Ops 0, 17 and 18: end, hold, release.
ghost use Rattle.std.specs.Prelude.{◌+◌, ◌≤◌, ◌<◌};
ghost use Rattle.words.specs.Numbers.{byte_at, half_at};
ghost use Rattle.bytecode.specs.Machine.{do_end, do_take_hold, letting};
ghost use Rattle.machine_ops.specs.Acts.{Room, Tells, Holding};

use crate::{Event, Out};
use formats::state::*;

pub fn op_hold(state: &mut [u8], frame: usize, depth: usize, address: u16, g: u8) -> Out
    requires { (Room state.old frame depth address) × (Holding state.old frame) }
    ensures { Tells (λ m h. do_take_hold g h) state.old frame depth address state.new result }
{
    machine_frames::take_hold(state, frame, g);
    machine_frames::go_to(state, frame, address + 1);
    Out::Gives(Event::Hold(g))
}

// The last taken goes first.
pub fn op_release(state: &mut [u8], frame: usize, depth: usize, address: u16) -> Out
    requires { (Room state.old frame depth address) × (0 < half_at state.old 6) × (half_at state.old 6 ≤ 512) × (0 < byte_at state.old (frame + 2)) }
    ensures { Tells (λ m h. letting h.top.holds h) state.old frame depth address state.new result }
{
    let h = words::half_at(state, HOLD_COUNT_AT);
    let g = state[HOLDS_AT + ((h as usize) - 1)];
    machine_frames::let_hold(state, frame);
    machine_frames::go_to(state, frame, address + 1);
    Out::Gives(Event::Release(g))
}

pub fn op_end(state: &mut [u8], frame: usize, depth: usize, address: u16) -> Out
    requires { Room state.old frame depth address }
    ensures { Tells (λ m h. do_end h) state.old frame depth address state.new result }
{
    machine_frames::finish(state);
    Out::Ends(0)
}
