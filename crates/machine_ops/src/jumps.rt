// Ops 8 and 9: go to b, and go to b if the operand is false.
ghost use Rattle.std.specs.Prelude.{◌<◌};
ghost use Rattle.bytecode.specs.Machine.{do_go_unless};
ghost use Rattle.machine_ops.specs.Acts.{Room, Tells, Jumps};

use crate::Out;

pub fn op_go(state: &mut [u8], frame: usize, depth: usize, address: u16, b: u16) -> Out
    requires { Room state.old frame depth address }
    ensures { Jumps b state.old frame depth address state.new result }
{
    machine_frames::go_to(state, frame, b);
    Out::Goes
}

pub fn op_unless(state: &mut [u8], frame: usize, depth: usize, address: u16, b: u16) -> Out
    requires { (Room state.old frame depth address) × (0 < depth) }
    ensures { Tells (λ m h. do_go_unless b h) state.old frame depth address state.new result }
{
    let k = depth - 1;
    let w = machine_frames::operand_word(state, frame, k);
    machine_frames::pop(state, frame, k);
    if w == 0 {
        machine_frames::go_to(state, frame, b);
        return Out::Goes;
    }
    machine_frames::go_to(state, frame, address + 1);
    Out::Goes
}
