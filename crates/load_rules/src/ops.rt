// The ops 0 to 20: what each leaves of a state, or a fault. Tests are made in the order of the definitions.
ghost use Rattle.std.specs.Prelude.{◌≡◌, true, false, ◌+◌, ◌≤◌, ◌<◌, length, IsSome};
ghost use Rattle.load_places.specs.Search.{tops};
ghost use Rattle.load_places.specs.Records.{bodies as body_count};
ghost use Rattle.load_places.specs.Rules.{push, unused, lands, op_end, op_logical, op_null, owner_body, op_load, op_store, twofold, operates};
ghost use Rattle.load_places.specs.Rules.{op_operator, op_go, op_unless, op_call, justs, op_return, op_make, op_get_field, op_put_field, op_set, op_fader, op_hold, op_release};
ghost use Rattle.load_places.specs.Rules.{op_assert, stops_by, op_stop, effect};
ghost use Rattle.load_places.specs.Index.{Well};
ghost use Rattle.load_rules.specs.Paired.{has_operands, cell_type, field_type};
ghost use Rattle.load_rules.specs.Moves.{Moves, Stack, Bodied, Classed, Shaped, Stands};

use crate::located::Located;
use crate::lookup::{body_at, class_at, end_of};
use crate::shapes::shape_at;
use crate::stack::{
    equal_shape, pop_after, pop_type, push_after, push_type, rebuilt, take_types, top_of,
    trade_one, trade_two,
};
use formats::compiled::*;
use formats::limits::*;
use formats::wide;
use load_places::Moved;

// Whether an instruction that has no use for operands has one.
fn has_operands(a: usize, b: usize) -> bool
    ensures { result ≡ has_operands a b }
{
    if a == 0 { b != 0 } else { true }
}

fn op_end(body: usize, a: usize, b: usize, stack: &[u8], holds: usize, depth: usize) -> Moved
    ensures { Moves stack.now result (op_end body a b holds (tops stack.now 0 depth)) }
{
    if has_operands(a, b) {
        return Moved::Bad;
    }
    if body != 0 {
        return Moved::Bad;
    }
    if holds != 0 {
        return Moved::Bad;
    }
    if depth != 0 {
        return Moved::Bad;
    }
    Moved::Ends
}

// An integer or bits: t is the type.
fn op_constant(a: usize, t: u8, stack: &mut [u8], holds: usize, depth: usize) -> Moved
    requires { Stack stack.old holds depth }
    ensures { Moves stack.new result (unused a (push t holds (tops stack.old 0 depth))) }
{
    if a != 0 {
        return Moved::Bad;
    }
    push_type(stack, t, holds, depth)
}

fn op_logical(a: usize, b: usize, stack: &mut [u8], holds: usize, depth: usize) -> Moved
    requires { Stack stack.old holds depth }
    ensures { Moves stack.new result (op_logical a b holds (tops stack.old 0 depth)) }
{
    if a != 0 {
        return Moved::Bad;
    }
    if 2 <= b {
        return Moved::Bad;
    }
    push_type(stack, TYPE_LOGICAL, holds, depth)
}

// The type byte of references to records of a class.
fn class_type(class: usize) -> u8
    requires { class < 16 }
    ensures { result ≡ 16 + class }
{
    (wide::TYPE_CLASS + class) as u8
}

fn op_null(code: &[u8], a: usize, b: usize, stack: &mut [u8], holds: usize, depth: usize) -> Moved
    requires { (Well code.now) × (Stack stack.old holds depth) }
    ensures { Moves stack.new result (op_null code.now a b holds (tops stack.old 0 depth)) }
{
    if b != 0 {
        return Moved::Bad;
    }
    let n = words::wide::byte_at(code, CLASS_COUNT_AT);
    if n <= a {
        return Moved::Bad;
    }
    push_type(stack, class_type(a), holds, depth)
}

// Whose cells an op means: a 0, those of its own body; a 1, the root's.
fn owner_body(body: usize, a: usize) -> usize
    ensures { result ≡ owner_body body a }
{
    if a == 0 {
        return body;
    }
    0
}

// The type of the cell that an op means, if there is that cell.
fn cell_type(code: &[u8], bodies: &[u32], body: usize, a: usize, b: usize) -> Option<u8>
    requires { (Bodied code.now bodies.now) × (body < body_count code.now) }
    ensures { result ≡ cell_type code.now body a b }
{
    if 2 <= a {
        return None;
    }
    let o = owner_body(body, a);
    let q = body_at(code, bodies, o);
    let c = words::wide::byte_at(code, q + CELL_COUNT_AT);
    if c <= b {
        return None;
    }
    Some(code[q + BODY_BYTES + b])
}

fn op_load(
    code: &[u8],
    bodies: &[u32],
    body: usize,
    a: usize,
    b: usize,
    stack: &mut [u8],
    holds: usize,
    depth: usize,
) -> Moved
    requires { (Bodied code.now bodies.now) × (body < body_count code.now) × (Stack stack.old holds depth) }
    ensures { Moves stack.new result (op_load code.now body a b holds (tops stack.old 0 depth)) }
{
    match cell_type(code, bodies, body, a, b) {
        Some(t) => push_type(stack, t, holds, depth),
        None => Moved::Bad,
    }
}

fn op_store(
    code: &[u8],
    bodies: &[u32],
    body: usize,
    a: usize,
    b: usize,
    stack: &[u8],
    holds: usize,
    depth: usize,
) -> Moved
    requires { (Bodied code.now bodies.now) × (body < body_count code.now) × (Stack stack.now holds depth) }
    ensures { Moves stack.now result (op_store code.now body a b holds (tops stack.now 0 depth)) }
{
    match cell_type(code, bodies, body, a, b) {
        Some(t) => pop_type(stack, t, holds, depth),
        None => Moved::Bad,
    }
}

// Whether the operators on two logical values or two bits, and on one, take the type.
fn is_twofold(t: u8) -> bool
    ensures { result ≡ twofold t }
{
    matches!(t, TYPE_LOGICAL | TYPE_BITS)
}

fn operate(a: usize, stack: &mut [u8], holds: usize, depth: usize) -> Moved
    requires { Stack stack.old holds depth }
    ensures { Moves stack.new result (operates a holds (tops stack.old 0 depth)) }
{
    let t = top_of(stack, depth);
    let integer = TYPE_INTEGER;
    match a {
        1..=5 => trade_two(stack, integer, integer, integer, holds, depth),
        6..=9 => trade_two(stack, integer, integer, TYPE_LOGICAL, holds, depth),
        10..=11 => trade_two(stack, t, t, TYPE_LOGICAL, holds, depth),
        12..=13 => if is_twofold(t) {
            trade_two(stack, t, t, t, holds, depth)
        } else {
            Moved::Bad
        },
        14..=15 => trade_two(stack, TYPE_BITS, integer, TYPE_BITS, holds, depth),
        20..=21 => trade_one(stack, integer, integer, holds, depth),
        22 => if is_twofold(t) {
            trade_one(stack, t, t, holds, depth)
        } else {
            Moved::Bad
        },
        _ => Moved::Bad,
    }
}

fn op_operator(a: usize, b: usize, stack: &mut [u8], holds: usize, depth: usize) -> Moved
    requires { Stack stack.old holds depth }
    ensures { Moves stack.new result (op_operator a b holds (tops stack.old 0 depth)) }
{
    if b != 0 {
        return Moved::Bad;
    }
    operate(a, stack, holds, depth)
}

// Whether a jump from a body to b finds its state in a shape there.
fn lands_at(
    code: &[u8],
    shapes: &[u32],
    bodies: &[u32],
    body: usize,
    b: usize,
    stack: &[u8],
    holds: usize,
    depth: usize,
) -> bool
    requires { (Shaped code.now shapes.now) × (Bodied code.now bodies.now) × (body < body_count code.now) × (length stack.now ≡ 32) × (depth ≤ 32) }
    ensures { result ≡ lands code.now body b holds (tops stack.now 0 depth) }
{
    let q = body_at(code, bodies, body);
    let f = words::wide::half_at(code, q + FIRST_AT);
    if b < f {
        return false;
    }
    let e = end_of(code, bodies, body);
    if e <= b {
        return false;
    }
    match shape_at(code, shapes, b) {
        Some(p) => equal_shape(code, p, stack, holds, depth),
        None => false,
    }
}

fn op_go(
    code: &[u8],
    shapes: &[u32],
    bodies: &[u32],
    body: usize,
    a: usize,
    b: usize,
    stack: &[u8],
    holds: usize,
    depth: usize,
) -> Moved
    requires { (Shaped code.now shapes.now) × (Bodied code.now bodies.now) × (body < body_count code.now) × (Stack stack.now holds depth) }
    ensures { Moves stack.now result (op_go code.now body a b holds (tops stack.now 0 depth)) }
{
    if a != 0 {
        return Moved::Bad;
    }
    if lands_at(code, shapes, bodies, body, b, stack, holds, depth) {
        Moved::Ends
    } else {
        Moved::Bad
    }
}

fn op_unless(
    code: &[u8],
    shapes: &[u32],
    bodies: &[u32],
    body: usize,
    a: usize,
    b: usize,
    stack: &[u8],
    holds: usize,
    depth: usize,
) -> Moved
    requires { (Shaped code.now shapes.now) × (Bodied code.now bodies.now) × (body < body_count code.now) × (Stack stack.now holds depth) }
    ensures { Moves stack.now result (op_unless code.now body a b holds (tops stack.now 0 depth)) }
{
    if a != 0 {
        return Moved::Bad;
    }
    match pop_type(stack, TYPE_LOGICAL, holds, depth) {
        Moved::Goes(g, e) => if lands_at(code, shapes, bodies, body, b, stack, g, e) {
            Moved::Goes(g, e)
        } else {
            Moved::Bad
        },
        Moved::Ends => Moved::Bad,
        Moved::Bad => Moved::Bad,
    }
}

fn op_call(
    code: &[u8],
    bodies: &[u32],
    a: usize,
    b: usize,
    stack: &mut [u8],
    holds: usize,
    depth: usize,
) -> Moved
    requires { (Bodied code.now bodies.now) × (Stack stack.old holds depth) }
    ensures { Moves stack.new result (op_call code.now a b holds (tops stack.old 0 depth)) }
{
    if a != 0 {
        return Moved::Bad;
    }
    if b == 0 {
        return Moved::Bad;
    }
    let m = words::wide::byte_at(code, BODY_COUNT_AT);
    if m <= b {
        return Moved::Bad;
    }
    let q = body_at(code, bodies, b);
    let n = words::wide::byte_at(code, q + PARAMETER_COUNT_AT);
    let f = take_types(code, q + BODY_BYTES, n, stack, holds, depth);
    let t = code[q + RESULT_AT];
    if t == 0 {
        return rebuilt(f);
    }
    push_after(stack, t, f)
}

// The stack must hold just a result of type t, or nothing where t is 0.
fn just(t: u8, stack: &[u8], holds: usize, depth: usize) -> Moved
    requires { Stack stack.now holds depth }
    ensures { Moves stack.now result (justs t holds (tops stack.now 0 depth)) }
{
    if t == 0 {
        return if depth != 0 { Moved::Bad } else { Moved::Ends };
    }
    match pop_type(stack, t, holds, depth) {
        Moved::Goes(_, e) => if e != 0 { Moved::Bad } else { Moved::Ends },
        Moved::Ends => Moved::Bad,
        Moved::Bad => Moved::Bad,
    }
}

fn op_return(
    code: &[u8],
    bodies: &[u32],
    body: usize,
    a: usize,
    b: usize,
    stack: &[u8],
    holds: usize,
    depth: usize,
) -> Moved
    requires { (Bodied code.now bodies.now) × (body < body_count code.now) × (Stack stack.now holds depth) }
    ensures { Moves stack.now result (op_return code.now body a b holds (tops stack.now 0 depth)) }
{
    if has_operands(a, b) {
        return Moved::Bad;
    }
    if body == 0 {
        return Moved::Bad;
    }
    if holds != 0 { // a hold that is open would outlive its body
        return Moved::Bad;
    }
    let q = body_at(code, bodies, body);
    just(code[q + RESULT_AT], stack, holds, depth)
}

fn op_make(
    code: &[u8],
    classes: &[u32],
    a: usize,
    b: usize,
    stack: &mut [u8],
    holds: usize,
    depth: usize,
) -> Moved
    requires { (Classed code.now classes.now) × (Stack stack.old holds depth) }
    ensures { Moves stack.new result (op_make code.now a b holds (tops stack.old 0 depth)) }
{
    if b != 0 {
        return Moved::Bad;
    }
    let n = words::wide::byte_at(code, CLASS_COUNT_AT);
    if n <= a {
        return Moved::Bad;
    }
    let q = class_at(code, classes, a);
    let m = words::wide::byte_at(code, q + FIELD_COUNT_AT);
    let f = take_types(code, q + CLASS_BYTES, m, stack, holds, depth);
    push_after(stack, class_type(a), f)
}

// The type of field b of the class a, if there is that field.
fn field_type(code: &[u8], classes: &[u32], a: usize, b: usize) -> Option<u8>
    requires { Classed code.now classes.now }
    ensures field { result ≡ field_type code.now a b }
    ensures few { IsSome result → a < 16 }
{
    let n = words::wide::byte_at(code, CLASS_COUNT_AT);
    if n <= a {
        return None;
    }
    let q = class_at(code, classes, a);
    let m = words::wide::byte_at(code, q + FIELD_COUNT_AT);
    if m <= b {
        return None;
    }
    Some(code[q + CLASS_BYTES + b])
}

fn op_get_field(
    code: &[u8],
    classes: &[u32],
    a: usize,
    b: usize,
    stack: &mut [u8],
    holds: usize,
    depth: usize,
) -> Moved
    requires { (Classed code.now classes.now) × (Stack stack.old holds depth) }
    ensures { Moves stack.new result (op_get_field code.now a b holds (tops stack.old 0 depth)) }
{
    match field_type(code, classes, a, b) {
        Some(t) => trade_one(stack, class_type(a), t, holds, depth),
        None => Moved::Bad,
    }
}

fn op_put_field(
    code: &[u8],
    classes: &[u32],
    a: usize,
    b: usize,
    stack: &[u8],
    holds: usize,
    depth: usize,
) -> Moved
    requires { (Classed code.now classes.now) × (Stack stack.now holds depth) }
    ensures { Moves stack.now result (op_put_field code.now a b holds (tops stack.now 0 depth)) }
{
    match field_type(code, classes, a, b) {
        Some(t) => {
            let f = pop_type(stack, t, holds, depth);
            pop_after(stack, class_type(a), f)
        }
        None => Moved::Bad,
    }
}

fn op_set(a: usize, b: usize, stack: &[u8], holds: usize, depth: usize) -> Moved
    requires { Stack stack.now holds depth }
    ensures { Moves stack.now result (op_set a b holds (tops stack.now 0 depth)) }
{
    if has_operands(a, b) {
        return Moved::Bad;
    }
    let f = pop_type(stack, TYPE_INTEGER, holds, depth);
    pop_after(stack, TYPE_INTEGER, f)
}

fn op_fader(a: usize, b: usize, stack: &mut [u8], holds: usize, depth: usize) -> Moved
    requires { Stack stack.old holds depth }
    ensures { Moves stack.new result (op_fader a b holds (tops stack.old 0 depth)) }
{
    if has_operands(a, b) {
        return Moved::Bad;
    }
    trade_one(stack, TYPE_INTEGER, TYPE_INTEGER, holds, depth)
}

fn op_hold(a: usize, b: usize, stack: &[u8], holds: usize, depth: usize) -> Moved
    requires { Stack stack.now holds depth }
    ensures { Moves stack.now result (op_hold a b holds (tops stack.now 0 depth)) }
{
    if a != 0 {
        return Moved::Bad;
    }
    if GROUPS <= b {
        return Moved::Bad;
    }
    if MAX_HOLDS <= holds {
        return Moved::Bad;
    }
    Moved::Goes(holds + 1, depth)
}

fn op_release(a: usize, b: usize, stack: &[u8], holds: usize, depth: usize) -> Moved
    requires { Stack stack.now holds depth }
    ensures { Moves stack.now result (op_release a b holds (tops stack.now 0 depth)) }
{
    if has_operands(a, b) {
        return Moved::Bad;
    }
    if holds == 0 {
        return Moved::Bad;
    }
    Moved::Goes(holds - 1, depth)
}

fn op_assert(a: usize, b: usize, stack: &[u8], holds: usize, depth: usize) -> Moved
    requires { Stack stack.now holds depth }
    ensures { Moves stack.now result (op_assert a b holds (tops stack.now 0 depth)) }
{
    if has_operands(a, b) {
        return Moved::Bad;
    }
    pop_type(stack, TYPE_LOGICAL, holds, depth)
}

const CASE_INDEX: usize = values::CASE_INDEX as usize;

const STEP_ZERO: usize = values::STEP_ZERO as usize;

fn stops_by(a: usize) -> bool
    ensures { result ≡ stops_by a }
{
    matches!(a, CASE_INDEX | STEP_ZERO)
}

fn op_stop(a: usize, b: usize, stack: &[u8]) -> Moved
    ensures { Moves stack.now result (op_stop a b) }
{
    if !stops_by(a) {
        return Moved::Bad;
    }
    if b != 0 {
        return Moved::Bad;
    }
    Moved::Ends
}

// Each answer is built anew, so that the walk has the depth in a register: handed on as it comes, it goes through memory at every address.
// Kept (point 7): one `match` on the op and no table of functions: the format's ops are a closed list, and each arm hands over just what its op looks at.
pub fn effect_of(
    at: &Located,
    body: usize,
    op: usize,
    a: usize,
    b: usize,
    stack: &mut [u8],
    holds: usize,
    depth: usize,
) -> Moved
    requires { (Stands at.now) × (body < body_count at.now.code.now) × (Stack stack.old holds depth) }
    ensures { Moves stack.new result (effect at.now.code.now body op a b holds (tops stack.old 0 depth)) }
{
    let code = at.code;
    let bodies = at.bodies;
    match op {
        wide::OP_END => rebuilt(op_end(body, a, b, stack, holds, depth)),
        wide::OP_INTEGER => rebuilt(op_constant(a, TYPE_INTEGER, stack, holds, depth)),
        wide::OP_LOGICAL => rebuilt(op_logical(a, b, stack, holds, depth)),
        wide::OP_BITS => rebuilt(op_constant(a, TYPE_BITS, stack, holds, depth)),
        wide::OP_NULL => rebuilt(op_null(code, a, b, stack, holds, depth)),
        wide::OP_LOAD => rebuilt(op_load(code, bodies, body, a, b, stack, holds, depth)),
        wide::OP_STORE => rebuilt(op_store(code, bodies, body, a, b, stack, holds, depth)),
        wide::OP_OPERATOR => rebuilt(op_operator(a, b, stack, holds, depth)),
        wide::OP_GO => rebuilt(op_go(code, at.shapes, bodies, body, a, b, stack, holds, depth)),
        wide::OP_UNLESS => rebuilt(op_unless(
            code, at.shapes, bodies, body, a, b, stack, holds, depth,
        )),
        wide::OP_CALL => rebuilt(op_call(code, bodies, a, b, stack, holds, depth)),
        wide::OP_RETURN => rebuilt(op_return(code, bodies, body, a, b, stack, holds, depth)),
        wide::OP_MAKE => rebuilt(op_make(code, at.classes, a, b, stack, holds, depth)),
        wide::OP_GET_FIELD => rebuilt(op_get_field(code, at.classes, a, b, stack, holds, depth)),
        wide::OP_PUT_FIELD => rebuilt(op_put_field(code, at.classes, a, b, stack, holds, depth)),
        wide::OP_SET => rebuilt(op_set(a, b, stack, holds, depth)),
        wide::OP_FADER => rebuilt(op_fader(a, b, stack, holds, depth)),
        wide::OP_HOLD => rebuilt(op_hold(a, b, stack, holds, depth)),
        wide::OP_RELEASE => rebuilt(op_release(a, b, stack, holds, depth)),
        wide::OP_ASSERT => rebuilt(op_assert(a, b, stack, holds, depth)),
        wide::OP_STOP => rebuilt(op_stop(a, b, stack)),
        _ => Moved::Bad,
    }
}
