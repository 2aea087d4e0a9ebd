// Steps with the top operand aside, in locals as its word and its type byte. What a load or a push gives is mostly taken by the next op or the one behind it, an
// operator, a store or a jump: it goes into the bytes only where another op comes or the allowance is used. Till then the bytes hold the operands below it,
// and an address that was left behind.
ghost use Rattle.std.specs.Prelude.{◌≡◌, ◌+◌, ◌*◌, ◌≤◌, ◌<◌, true, length};
ghost use Rattle.words.specs.Numbers.{byte_at};
ghost use Rattle.bytecode.specs.State.{state_length};
ghost use Rattle.machine_frames.specs.Bytes.{went_to, pushed};
ghost use Rattle.machine_run.specs.Aside.{Coded, One, Begins, Pairs, Leaves, Lands, Grows, landed};

use formats::compiled::*;
use formats::state::*;

// The operators of two operands have the numbers below this.
const UNARY: u8 = 20;

const NEXT_OP_AT: usize = CODE_BYTES + CODE_OP_AT;

const NEXT_A_AT: usize = CODE_BYTES + CODE_A_AT;

// The bytes hold all again, and go on at an address; with the steps taken.
#[derive(Clone, Copy)]
pub struct Landing {
    pub address: u16,
    pub taken: u16,
}

// An operand to set aside, the number of those below it and the steps taken by that.
#[derive(Clone, Copy)]
pub struct Begun {
    pub word: u32,
    pub ty: u8,
    pub depth: usize,
    pub steps: u16,
}

// An operator on two operands that are both aside, the left one with its type byte; the number of those below, and the steps taken by the operator and all before it.
#[derive(Clone, Copy)]
struct Pair {
    operator: u8,
    ty: u8,
    left: u32,
    right: u32,
    depth: usize,
    steps: u16,
}

// What a load or a push gives, or the right operand of an operator, which is yet to be done.
pub fn begin(state: &mut [u8], frame: usize, depth: usize, op: u8, a: u8, b: u32) -> Option<Begun>
    requires { (length state.old ≡ state_length) × (frame ≤ 10200) × (depth ≤ 32) × (op ≡ 5 → b < 32) × (op ≡ 7 → 0 < depth) }
    ensures { Begins state.old frame depth op a b state.new result }
{
    match op {
        OP_LOAD => {
            let g = machine_ops::owner(frame, a);
            let word = machine_frames::cell_word(state, g, b as usize);
            let ty = machine_frames::cell_type(state, g, b as usize);
            Some(Begun {
                word,
                ty,
                depth,
                steps: 1,
            })
        }
        OP_INTEGER => Some(Begun {
            word: b,
            ty: TYPE_INTEGER,
            depth,
            steps: 1,
        }),
        OP_OPERATOR => {
            if UNARY <= a {
                return None;
            }
            let k = depth - 1;
            let word = machine_frames::operand_word(state, frame, k);
            let ty = machine_frames::operand_type(state, frame, k);
            machine_frames::pop(state, frame, k);
            Some(Begun {
                word,
                ty,
                depth: k,
                steps: 0,
            })
        }
        _ => None,
    }
}

// Whether the instruction behind the one at `place` is an operator of two operands, and may be done, too.
fn follows(code: &[u8], place: usize, room: u16) -> bool
    requires { place + 16 ≤ length code.now }
    ensures { result ≡ true → (byte_at code.now (place + 10) ≡ 7) × (byte_at code.now (place + 11) < 20) × (2 ≤ room) }
{
    if code[place + NEXT_OP_AT] != OP_OPERATOR {
        return false;
    }
    if UNARY <= code[place + NEXT_A_AT] {
        return false;
    }
    2 <= room
}

// With w, of type byte t, aside: the left operand is taken out of the bytes, or the right one is pushed or loaded, and the operator follows.
fn pair_up(
    code: &[u8],
    place: usize,
    state: &mut [u8],
    frame: usize,
    depth: usize,
    op: u8,
    a: u8,
    b: u32,
    w: u32,
    t: u8,
    room: u16,
) -> Option<Pair>
    requires { (length state.old ≡ state_length) × (frame ≤ 10200) × (depth ≤ 32) × (op ≡ 1 → place + 16 ≤ length code.now) × (op ≡ 5 → (place + 16 ≤ length code.now) × (b < 32))
        × (op ≡ 7 → a < 20 → 0 < depth) }
    ensures { Pairs code.now place state.old frame depth op a b w t room state.new result }
{
    match op {
        OP_OPERATOR => {
            if UNARY <= a {
                return None;
            }
            let k = depth - 1;
            let left = machine_frames::operand_word(state, frame, k);
            let ty = machine_frames::operand_type(state, frame, k);
            machine_frames::pop(state, frame, k);
            Some(Pair {
                operator: a,
                ty,
                left,
                right: w,
                depth: k,
                steps: 1,
            })
        }
        OP_INTEGER => {
            if follows(code, place, room) {
                return Some(Pair {
                    operator: code[place + NEXT_A_AT],
                    ty: t,
                    left: w,
                    right: b,
                    depth,
                    steps: 2,
                });
            }
            None
        }
        OP_LOAD => {
            if follows(code, place, room) {
                let g = machine_ops::owner(frame, a);
                let right = machine_frames::cell_word(state, g, b as usize);
                return Some(Pair {
                    operator: code[place + NEXT_A_AT],
                    ty: t,
                    left: w,
                    right,
                    depth,
                    steps: 2,
                });
            }
            None
        }
        _ => None,
    }
}

// Into the bytes with it.
fn put_back(
    state: &mut [u8],
    frame: usize,
    depth: usize,
    address: u16,
    taken: u16,
    w: u32,
    t: u8,
) -> Landing
    requires { (length state.old ≡ state_length) × (frame ≤ 10200) × (depth < 32) }
    ensures { (state.new ≡ went_to (pushed state.old frame depth w t) frame address) × (result ≡ landed address taken) }
{
    machine_frames::push(state, frame, depth, w, t);
    machine_frames::go_to(state, frame, address);
    Landing { address, taken }
}

// A store or a jump takes it; before any other op it is put back.
fn leave(
    state: &mut [u8],
    frame: usize,
    depth: usize,
    address: u16,
    taken: u16,
    op: u8,
    a: u8,
    b: u32,
    w: u32,
    t: u8,
) -> Landing
    requires { (length state.old ≡ state_length) × (frame ≤ 10200) × (depth < 32) × (address < 65535) × (taken < 65535) × (op ≡ 6 → b < 32) × (op ≡ 9 → b < 65536) }
    ensures { Leaves state.old frame depth address taken op a b w t state.new result }
{
    match op {
        OP_STORE => {
            let g = machine_ops::owner(frame, a);
            machine_frames::put_cell(state, g, b as usize, w, t);
            machine_frames::go_to(state, frame, address + 1);
            Landing {
                address: address + 1,
                taken: taken + 1,
            }
        }
        OP_UNLESS => {
            if w == 0 {
                machine_frames::go_to(state, frame, b as u16);
                return Landing {
                    address: b as u16,
                    taken: taken + 1,
                };
            }
            machine_frames::go_to(state, frame, address + 1);
            Landing {
                address: address + 1,
                taken: taken + 1,
            }
        }
        _ => put_back(state, frame, depth, address, taken, w, t),
    }
}

// To where it lands; or, where a condition broke off, the steps taken.
pub fn run_aside(
    code: &[u8],
    base: usize,
    state: &mut [u8],
    readings: &[u8],
    frame: usize,
    depth: usize,
    address: u16,
    taken: u16,
    allowance: u16,
    w: u32,
    t: u8,
) -> Result<Landing, u16>
    requires { (Coded code.now base) × (One code.now state.old frame depth address w t) × (taken ≤ allowance) }
    ensures { (Lands code.now readings.now allowance frame (went_to (pushed state.old frame depth w t) frame address) taken state.new result)
        × (Grows code.now (base + 8 * address) taken allowance result) }
{
    let mut k = depth;
    let mut i = address;
    let mut left = allowance - taken;
    let mut x = w;
    let mut u = t;
    // Kept (point 3): a turn takes one step or two, so that no `for` counts them.
    while 0 < left {
        let p = base + CODE_BYTES * (i as usize);
        let op = code[p + CODE_OP_AT];
        let a = code[p + CODE_A_AT];
        let b = words::word_at(code, p + CODE_B_AT);
        match pair_up(code, p, state, frame, k, op, a, b, x, u, left) {
            Some(pair) => match machine_ops::binary(pair.operator, pair.ty, pair.left, pair.right) {
                Ok(v) => {
                    k = pair.depth;
                    x = v.word;
                    u = v.ty;
                    i += pair.steps;
                    left -= pair.steps;
                }
                Err(e) => {
                    machine_frames::condition(state, e.number());
                    return Err(allowance - left + pair.steps);
                }
            },
            None => {
                return Ok(leave(state, frame, k, i, allowance - left, op, a, b, x, u));
            }
        }
    }
    Ok(put_back(state, frame, k, i, allowance, x, u))
}
