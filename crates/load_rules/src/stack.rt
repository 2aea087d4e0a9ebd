// The stack of operand types: at most 32 type bytes in a lent slice, the last on top.
ghost use Rattle.std.specs.Prelude.{◌≡◌, true, false, ◌+◌, ◌≤◌, ◌<◌, length};
ghost use Rattle.words.specs.Numbers.{byte_at};
ghost use Rattle.load_places.specs.Search.{tops, alike};
ghost use Rattle.load_places.specs.Rules.{push, pop, chain, takes, trade1, trade2, top_of, equals};
ghost use Rattle.load_rules.specs.Moves.{flow_of, Fit, Moves, Stack};

use formats::compiled::*;
use formats::limits::*;
use load_places::Moved;

// The same value built anew. An answer that comes back through memory and is copied on with its padding stalls the walk at each address: up to four times its time.
pub fn rebuilt(flow: Moved) -> Moved
    ensures { result ≡ flow }
{
    match flow {
        Moved::Goes(h, d) => Moved::Goes(h, d),
        Moved::Ends => Moved::Ends,
        Moved::Bad => Moved::Bad,
    }
}

pub fn push_type(stack: &mut [u8], t: u8, holds: usize, depth: usize) -> Moved
    requires { Stack stack.old holds depth }
    ensures { Moves stack.new result (push t holds (tops stack.old 0 depth)) }
{
    if MAX_OPERANDS <= depth {
        return Moved::Bad;
    }
    stack[depth] = t;
    Moved::Goes(holds, depth + 1)
}

pub fn pop_type(stack: &[u8], t: u8, holds: usize, depth: usize) -> Moved
    requires { Stack stack.now holds depth }
    ensures { Moves stack.now result (pop t holds (tops stack.now 0 depth)) }
{
    if depth == 0 {
        return Moved::Bad;
    }
    let e = depth - 1;
    if stack[e] != t {
        return Moved::Bad;
    }
    Moved::Goes(holds, e)
}

// The same after a move.
pub fn push_after(stack: &mut [u8], t: u8, flow: Moved) -> Moved
    requires { (length stack.old ≡ 32) × (Fit flow) }
    ensures { Moves stack.new result (chain (flow_of flow stack.old) (λ h s. push t h s)) }
{
    match flow {
        Moved::Goes(h, d) => push_type(stack, t, h, d),
        Moved::Ends | Moved::Bad => Moved::Bad,
    }
}

pub fn pop_after(stack: &[u8], t: u8, flow: Moved) -> Moved
    requires { (length stack.now ≡ 32) × (Fit flow) }
    ensures { Moves stack.now result (chain (flow_of flow stack.now) (λ h s. pop t h s)) }
{
    match flow {
        Moved::Goes(h, d) => pop_type(stack, t, h, d),
        Moved::Ends | Moved::Bad => Moved::Bad,
    }
}

pub fn trade_one(stack: &mut [u8], taken: u8, given: u8, holds: usize, depth: usize) -> Moved
    requires { Stack stack.old holds depth }
    ensures { Moves stack.new result (trade1 taken given holds (tops stack.old 0 depth)) }
{
    let f = pop_type(stack, taken, holds, depth);
    push_after(stack, given, f)
}

pub fn trade_two(
    stack: &mut [u8],
    under: u8,
    top: u8,
    given: u8,
    holds: usize,
    depth: usize,
) -> Moved
    requires { Stack stack.old holds depth }
    ensures { Moves stack.new result (trade2 under top given holds (tops stack.old 0 depth)) }
{
    let f = pop_type(stack, top, holds, depth);
    let g = pop_after(stack, under, f);
    push_after(stack, given, g)
}

pub fn top_of(stack: &[u8], depth: usize) -> u8
    requires { (length stack.now ≡ 32) × (depth ≤ 32) }
    ensures { result ≡ top_of (tops stack.now 0 depth) }
{
    if depth == 0 {
        return 0;
    }
    stack[depth - 1]
}

// From the top down, as the definition compares.
fn same_types(code: &[u8], place: usize, stack: &[u8], depth: usize) -> bool
    requires { (place + depth ≤ length code.now) × (depth ≤ length stack.now) }
    ensures { result ≡ alike (tops stack.now 0 depth) (tops code.now place depth) }
{
    for i in (0..depth).rev() {
        if stack[i] != code[place + i] {
            return false;
        }
    }
    true
}

// Whether a state is that of the shape at the place.
pub fn equal_shape(code: &[u8], place: usize, stack: &[u8], holds: usize, depth: usize) -> bool
    requires { (place + 6 + byte_at code.now (place + 5) ≤ length code.now) × (length stack.now ≡ 32) × (depth ≤ 32) }
    ensures { result ≡ equals code.now place holds (tops stack.now 0 depth) }
{
    let g = words::wide::byte_at(code, place + SHAPE_HOLDS_AT);
    if holds != g {
        return false;
    }
    let e = words::wide::byte_at(code, place + SHAPE_DEPTH_AT);
    if depth != e {
        return false;
    }
    same_types(code, place + SHAPE_BYTES, stack, depth)
}

pub fn load_types(code: &[u8], place: usize, stack: &mut [u8], depth: usize)
    requires { (place + depth ≤ length code.now) × (depth ≤ length stack.old) }
    ensures { tops stack.new 0 depth ≡ tops code.now place depth }
{
    for i in 0..depth {
        stack[i] = code[place + i];
    }
}

// Takes values of the types at the place off the stack, the last of them first.
pub fn take_types(
    code: &[u8],
    place: usize,
    number: usize,
    stack: &[u8],
    holds: usize,
    depth: usize,
) -> Moved
    requires { (place + number ≤ length code.now) × (Stack stack.now holds depth) }
    ensures { Moves stack.now result (takes code.now place number holds (tops stack.now 0 depth)) }
{
    let mut e = depth;
    for n in (0..number).rev() {
        if e == 0 {
            return Moved::Bad;
        }
        if stack[e - 1] != code[place + n] {
            return Moved::Bad;
        }
        e -= 1;
    }
    Moved::Goes(holds, e)
}
