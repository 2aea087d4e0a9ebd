// An address after another: what flows in meets the shape there, the op works on it, and what it leaves flows on.
ghost use Rattle.std.specs.Prelude.{◌≡◌, true, false, ◌+◌, ◌≤◌, ◌<◌, length};
ghost use Rattle.words.specs.Numbers.{byte_at, word_at};
ghost use Rattle.load_places.specs.Records.{bodies as body_count, count};
ghost use Rattle.load_places.specs.Index.{Well};
ghost use Rattle.load_places.specs.Rules.{chain, effect, meet, leave, plain, opens, found};
ghost use Rattle.load_rules.specs.Moves.{flow_of, Fit, Moves, is_bad_move, effect_at, Bodied, Stands, InBody, Next};

use crate::located::Located;
use crate::lookup::{body_at, end_of, instruction_at};
use crate::ops::effect_of;
use crate::stack::{equal_shape, load_types, rebuilt};
use formats::compiled::*;
use formats::limits::*;
use load_places::{Moved, NextShape, Within};

// The shape at the place, which the state equals, or which is the state where nothing flows in.
fn meet_shape(code: &[u8], place: usize, stack: &mut [u8], flow: Moved) -> Moved
    requires { ((place ≡ 0 → ⊥)) × (place + 6 + byte_at code.now (place + 5) ≤ length code.now) × (length stack.old ≡ 32) × (Fit flow) }
    ensures { Moves stack.new result (meet code.now place (flow_of flow stack.old)) }
{
    let h = words::wide::byte_at(code, place + SHAPE_HOLDS_AT);
    if MAX_HOLDS < h {
        return Moved::Bad;
    }
    let d = words::wide::byte_at(code, place + SHAPE_DEPTH_AT);
    if MAX_OPERANDS < d {
        return Moved::Bad;
    }
    match flow {
        Moved::Goes(g, e) => if equal_shape(code, place, stack, g, e) {
            Moved::Goes(g, e)
        } else {
            Moved::Bad
        },
        Moved::Ends => {
            load_types(code, place + SHAPE_BYTES, stack, d);
            Moved::Goes(h, d)
        }
        Moved::Bad => Moved::Bad,
    }
}

// Behind an op that nothing flows on from there is a shape, or the body's end.
fn leave_to(
    code: &[u8],
    within: Within,
    next: NextShape,
    address: usize,
    stack: &[u8],
    flow: Moved,
) -> Moved
    requires { (Well code.now) × (InBody code.now address within) × (Next code.now (address + 1) next) × (address < count code.now) × (Fit flow) }
    ensures { Moves stack.now result (leave code.now within.body address (flow_of flow stack.now)) }
{
    let j = address + 1;
    match flow {
        Moved::Goes(h, d) => if j == within.end {
            Moved::Bad
        } else {
            Moved::Goes(h, d)
        },
        Moved::Ends => {
            if j == within.end {
                return Moved::Ends;
            }
            if next.address == j {
                Moved::Ends
            } else {
                Moved::Bad
            }
        }
        Moved::Bad => Moved::Bad,
    }
}

fn is_plain(body: usize, parameters: usize, res: usize) -> bool
    requires { (parameters < 256) × (res < 256) }
    ensures { result ≡ plain body parameters res }
{
    body != 0 || parameters + res == 0
}

fn open_body(
    code: &[u8],
    bodies: &[u32],
    within: Within,
    address: usize,
    stack: &[u8],
    flow: Moved,
) -> Moved
    requires { (Bodied code.now bodies.now) × (InBody code.now address within) × (Fit flow) }
    ensures { Moves stack.now result (opens code.now within.body address (flow_of flow stack.now)) }
{
    if within.first != address {
        return flow;
    }
    let q = body_at(code, bodies, within.body);
    let c = words::wide::byte_at(code, q + CELL_COUNT_AT);
    if MAX_CELLS < c {
        return Moved::Bad;
    }
    let x = words::wide::byte_at(code, q + PARAMETER_COUNT_AT);
    let y = words::wide::byte_at(code, q + RESULT_AT);
    if is_plain(within.body, x, y) {
        Moved::Goes(0, 0)
    } else {
        Moved::Bad
    }
}

// The state found at an address of the body, where the flow comes in; `next` is the first shape not before it.
pub fn found_at(
    code: &[u8],
    bodies: &[u32],
    within: Within,
    next: NextShape,
    address: usize,
    stack: &mut [u8],
    flow: Moved,
) -> Moved
    requires { (Bodied code.now bodies.now) × (InBody code.now address within) × (Next code.now address next) × (length stack.old ≡ 32) × (Fit flow)
        × (address < count code.now) }
    ensures { Moves stack.new result (found code.now address (flow_of flow stack.old)) }
{
    let o = open_body(code, bodies, within, address, stack, flow);
    if next.address != address {
        return o;
    }
    meet_shape(code, next.place, stack, o)
}

// What the op at the address makes of a state.
fn effect_after(at: &Located, body: usize, address: usize, stack: &mut [u8], flow: Moved) -> Moved
    requires { (Stands at.now) × (body < body_count at.now.code.now) × (address < count at.now.code.now) × (length stack.old ≡ 32) × (Fit flow) }
    ensures { Moves stack.new result (chain (flow_of flow stack.old) (λ h s. effect_at at.now.code.now body address h s)) }
{
    let x = instruction_at(at.code, at.base, address);
    match flow {
        Moved::Goes(h, d) => effect_of(at, body, x.op, x.a, x.b, stack, h, d),
        Moved::Ends => Moved::Bad,
        Moved::Bad => Moved::Bad,
    }
}

// What goes on from the address, for the walk that has found the state there; `next` is the first shape after it. There is one such walk
// (`state_check`): with one caller on the way down to `effect_of` all of it is inlined there; with two, every address costs a call more, and what
// it answers goes through memory (docs/SPEED.md).
pub fn go_on(
    at: &Located,
    within: Within,
    next: NextShape,
    address: usize,
    stack: &mut [u8],
    flow: Moved,
) -> Moved
    requires { (Stands at.now) × (InBody at.now.code.now address within) × (Next at.now.code.now (address + 1) next)
        × (address < count at.now.code.now) × (length stack.old ≡ 32) × (Fit flow) }
    ensures { Moves stack.new result (leave at.now.code.now within.body address
        (chain (flow_of flow stack.old) (λ h s. effect_at at.now.code.now within.body address h s))) }
{
    let e = effect_after(at, within.body, address, stack, flow);
    rebuilt(leave_to(at.code, within, next, address, stack, e))
}

// Where the walk begins: the first body.
pub fn first_body(code: &[u8], bodies: &[u32]) -> Within
    requires { Bodied code.now bodies.now }
    ensures { InBody code.now 0 result }
{
    let q = body_at(code, bodies, 0);
    let first = words::wide::half_at(code, q + FIRST_AT);
    let end = end_of(code, bodies, 0);
    Within {
        body: 0,
        first,
        end,
    }
}

// The body of the next address. Where a body begins and ends is looked up where it begins, and not at each of its addresses.
pub fn next_body(code: &[u8], bodies: &[u32], within: Within, address: usize) -> Within
    requires { (Bodied code.now bodies.now) × (InBody code.now address within) × (address < count code.now) }
    ensures { InBody code.now (address + 1) result }
{
    let j = address + 1;
    if j != within.end {
        return within;
    }
    let m = words::wide::byte_at(code, BODY_COUNT_AT);
    let k = within.body + 1;
    if m <= k {
        return within;
    }
    let end = end_of(code, bodies, k);
    Within {
        body: k,
        first: j,
        end,
    }
}

pub fn is_bad(flow: Moved) -> bool
    ensures { result ≡ is_bad_move flow }
{
    matches!(flow, Moved::Bad)
}
