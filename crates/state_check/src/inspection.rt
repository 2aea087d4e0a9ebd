// Whether bytes hold a sound state of a macro: the loading check and the soundness test, in one walk of the macro. And the loading check alone.
ghost use Rattle.std.specs.Prelude.{◌≡◌, true, false, cond, ℕ, ◌+◌, ◌*◌, ◌≤◌, ◌<◌, length, eqb};
ghost use Rattle.words.specs.Numbers.{byte_at};
ghost use Rattle.load_places.specs.Search.{tops};
ghost use Rattle.load_places.specs.Records.{count, bad_head};
ghost use Rattle.load_places.specs.Rules.{body_of, found, into, broken};
ghost use Rattle.load_places.specs.Index.{Indexed};
ghost use Rattle.load_check.specs.Loaded.{loaded_of};
ghost use Rattle.load_check.specs.Walk.{flow_of, Fit, Stands};
ghost use Rattle.state_sound.specs.Each.{each};
ghost use Rattle.state_sound.specs.Fits.{address_in, stands_in, activations_in};
ghost use Rattle.state_check.specs.Tested.{Counted, AnyCounted, AnySized, args_fit, standing, Upto, Tests};
ghost use Rattle.state_check.specs.Inspecting.{records_in, sized_fits, Inspects, Tells};
ghost use Rattle.bytecode.specs.Rules.{judge_macro};
ghost use Rattle.bytecode.specs.State.{state_length};

use crate::tests::{Numbered, plain_fits, row_fits};
use formats::compiled::*;
use formats::limits::*;
use formats::state::*;
use formats::wide;
use load_check::Located;
use load_places::Moved;
use values::Refusal;

// Whether as many bytes are the same in two rows.
fn same_row(code: &[u8], place: usize, row: &[u8], from: usize, count: usize) -> bool
    requires { (place + count ≤ length code.now) × (from + count ≤ length row.now) }
    ensures { result ≡ each (λ j. eqb (byte_at code.now (place + j)) (byte_at row.now (from + j))) 0 count }
{
    let mut ok = true;
    for j in 0..count {
        let a = words::wide::byte_at(code, place + j);
        let b = words::wide::byte_at(row, from + j);
        ok &= a == b;
    }
    ok
}

// Whether the types found are the operands of activation k and above them the arguments that its call took.
fn args_fit(
    at: &Located,
    of: &Numbered,
    k: usize,
    stack: &[u8],
    operands: usize,
    depth: usize,
) -> bool
    requires { (Stands at.now) × (Counted at.now.code.now of.now.state.now of.now.activations) × (k < of.now.activations) × (length stack.now ≡ 32) × (depth ≤ 32) × (operands < 256) }
    ensures { result ≡ args_fit at.now.code.now of.now.state.now of.now.activations k stack.now operands depth }
{
    let code = at.code;
    let j = k + 1;
    if of.activations <= j {
        return operands == depth;
    }
    let b = words::wide::byte_at(of.state, ACTIVATIONS_AT + ACTIVATION_BYTES * j);
    let q = load_check::body_at(code, at.bodies, b);
    let t = words::wide::byte_at(code, q + PARAMETER_COUNT_AT);
    if operands + t != depth {
        return false;
    }
    same_row(code, q + BODY_BYTES, stack, operands, t)
}

// Whether activation k fits the state found where it stands: in a body, with as many open holds and operands of the types in `stack`.
fn stands_at(
    at: &Located,
    of: &Numbered,
    k: usize,
    body: usize,
    stack: &[u8],
    holds: usize,
    depth: usize,
) -> bool
    requires { (Stands at.now) × (Counted at.now.code.now of.now.state.now of.now.activations) × (k < of.now.activations) × (length stack.now ≡ 32) × (depth ≤ 32) }
    ensures { result ≡ stands_in at.now.code.now of.now.state.now of.now.records of.now.activations k body holds (tops stack.now 0 depth) }
{
    let state = of.state;
    let p = ACTIVATIONS_AT + ACTIVATION_BYTES * k;
    let o = words::wide::byte_at(state, p);
    if o != body {
        return false;
    }
    let g = words::wide::byte_at(state, p + OWN_HOLD_COUNT_AT);
    if g != holds {
        return false;
    }
    let a = words::wide::byte_at(state, p + OPERAND_COUNT_AT);
    if !args_fit(at, of, k, stack, a, depth) {
        return false;
    }
    row_fits(
        at.code,
        of,
        stack,
        0,
        p + OPERAND_TYPES_AT,
        p + OPERAND_WORDS_AT,
        a,
    )
}

// The same, if it stands at the address.
fn stands_if(
    at: &Located,
    of: &Numbered,
    k: usize,
    address: usize,
    body: usize,
    stack: &[u8],
    holds: usize,
    depth: usize,
) -> bool
    requires { (Stands at.now) × (Counted at.now.code.now of.now.state.now of.now.activations) × (k < of.now.activations) × (length stack.now ≡ 32) × (depth ≤ 32) }
    ensures { result ≡ cond (eqb (address_in of.now.state.now k) address) (stands_in at.now.code.now of.now.state.now of.now.records of.now.activations k body holds
        (tops stack.now 0 depth)) true }
{
    let a = words::wide::half_at(of.state, ACTIVATIONS_AT + ACTIVATION_BYTES * k + ADDRESS_AT);
    if a != address {
        return true;
    }
    stands_at(at, of, k, body, stack, holds, depth)
}

// All activations that stand at the address.
fn all_stand(
    at: &Located,
    of: &Numbered,
    address: usize,
    body: usize,
    stack: &[u8],
    holds: usize,
    depth: usize,
) -> bool
    requires { (Stands at.now) × (AnyCounted at.now.code.now of.now.state.now of.now.activations) × (length stack.now ≡ 32) × (depth ≤ 32) }
    ensures { result ≡ each (λ k. cond (eqb (address_in of.now.state.now k) address) (stands_in at.now.code.now of.now.state.now of.now.records of.now.activations k body holds
        (tops stack.now 0 depth)) true) 0 of.now.activations }
{
    let mut ok = true;
    for k in 0..of.activations {
        let f = stands_if(at, of, k, address, body, stack, holds, depth);
        ok &= f;
    }
    ok
}

// Where no state is found the address has a fault, and the answer does not count.
fn found_fits(
    at: &Located,
    of: &Numbered,
    address: usize,
    body: usize,
    stack: &[u8],
    flow: Moved,
) -> bool
    requires { (Stands at.now) × (AnyCounted at.now.code.now of.now.state.now of.now.activations) × (length stack.now ≡ 32) × (Fit flow) }
    ensures { result ≡ standing at.now.code.now of.now.state.now of.now.records of.now.activations address body (flow_of flow stack.now) }
{
    match flow {
        Moved::Goes(h, d) => all_stand(at, of, address, body, stack, h, d),
        Moved::Ends => true,
        Moved::Bad => true,
    }
}

// The nearer of two addresses that are not before a third.
fn nearer(best: usize, a: usize, address: usize) -> usize
    ensures { (result ≤ best) × (address ≤ a → result ≤ a) }
{
    if a < address {
        return best;
    }
    if a < best {
        return a;
    }
    best
}

// No activation stands from the given address on before this one.
fn next_wanted(of: &Numbered, address: usize) -> usize
    requires { AnySized of.now.state.now of.now.activations }
    ensures { (k : ℕ) → k < of.now.activations → address ≤ address_in of.now.state.now k → result ≤ address_in of.now.state.now k }
{
    let mut best: usize = 65536;
    for k in 0..of.activations {
        let a = words::wide::half_at(of.state, ACTIVATIONS_AT + ACTIVATION_BYTES * k + ADDRESS_AT);
        best = nearer(best, a, address);
    }
    best
}

// Whether those fit that stand before an address, and the next address at which one stands.
// Kept (point 1): both hold at every address, so neither is an Option of the other.
#[derive(Drop)]
struct Wanted {
    ok: bool,
    next: usize,
}

// An address with the state found there. Most addresses are not wanted, and cost one comparison.
fn look(
    at: &Located,
    of: &Numbered,
    address: usize,
    body: usize,
    stack: &[u8],
    flow: Moved,
    ok: bool,
    next: usize,
) -> Wanted
    requires { (Stands at.now) × (AnyCounted at.now.code.now of.now.state.now of.now.activations) × (length stack.now ≡ 32) × (Fit flow) × (address < 65536)
        × (body ≡ body_of at.now.code.now address) × (flow_of flow stack.now ≡ found at.now.code.now address (into at.now.code.now address))
        × (Upto at.now.code.now of.now.state.now of.now.records of.now.activations address ok next) }
    ensures { broken at.now.code.now address ≡ false → Upto at.now.code.now of.now.state.now of.now.records of.now.activations (address + 1) result.ok result.next }
{
    if address < next {
        return Wanted { ok, next };
    }
    let f = found_fits(at, of, address, body, stack, flow);
    let j = next_wanted(of, address + 1);
    Wanted {
        ok: ok & f,
        next: j,
    }
}

// Whether the activations fit where they stand; or the first address with a fault.
fn walk_tests(at: &Located, of: &Numbered, stack: &mut [u8]) -> Result<bool, usize>
    requires { (Stands at.now) × (length stack.old ≡ 32) × (AnyCounted at.now.code.now of.now.state.now of.now.activations) }
    ensures { Tests at.now.code.now of.now.state.now of.now.records of.now.activations result }
{
    let code = at.code;
    let bodies = at.bodies;
    let stop = words::wide::half_at(code, CODE_COUNT_AT);
    let mut here = load_check::first_body(code, bodies);
    let mut shape = load_check::first_shape(code, at.base, stop);
    let mut flow = Moved::Ends;
    let mut ok = true;
    let mut next = next_wanted(of, 0);
    for address in 0..stop {
        let g = load_check::found_at(code, bodies, here, shape, address, stack, flow);
        let after = load_check::shape_after(code, shape, address);
        let w = look(at, of, address, here.body, stack, g, ok, next);
        let e = load_check::go_on(at, here, after, address, stack, g);
        if load_check::is_bad(e) {
            return Err(address);
        }
        here = load_check::next_body(code, bodies, here, address);
        shape = after;
        flow = e;
        ok = w.ok;
        next = w.next;
    }
    Ok(ok)
}

#[derive(Drop)]
struct Counts {
    activations: usize,
    records: usize,
}

// What the walk is to test: nothing where the state is refused anyway, or has no activations.
fn count_wanted(state: &[u8], plain: bool) -> Counts
    requires { plain ≡ true → length state.now ≡ state_length }
    ensures { (result.activations ≡ cond plain (activations_in state.now) 0) × (result.records ≡ cond plain (records_in state.now) 0) }
{
    if !plain {
        return Counts {
            activations: 0,
            records: 0,
        };
    }
    let phase = words::wide::byte_at(state, PHASE_AT);
    if phase != wide::RUNNING {
        return Counts {
            activations: 0,
            records: 0,
        };
    }
    let n = words::wide::byte_at(state, ACTIVATION_COUNT_AT);
    let r = words::wide::half_at(state, RECORD_COUNT_AT);
    Counts {
        activations: n,
        records: r,
    }
}

// A state of another length is not sound, and not looked at: the macro is judged beside it all the same.
fn sized_fits(at: &Located, state: &[u8]) -> bool
    requires { Stands at.now }
    ensures { result ≡ sized_fits at.now.code.now state.now }
{
    if state.len() != STATE_BYTES {
        return false;
    }
    plain_fits(at, state)
}

fn inspect_in(
    code: &[u8],
    state: &[u8],
    shapes: &mut [u32],
    bodies: &mut [u32],
    classes: &mut [u32],
    instructions: usize,
) -> Result<Option<usize>, Refusal>
    requires { (bad_head code.now ≡ false) × (instructions ≡ count code.now) × (instructions ≤ 8 * length shapes.old) × (64 ≤ length bodies.old) × (16 ≤ length classes.old)
        × (Indexed code.now shapes.old instructions 0) }
    ensures { Tells code.now state.now bodies.new classes.new result }
{
    let mut stack = [0u8; MAX_OPERANDS];
    let base = match load_check::scan(code, shapes, bodies, classes, instructions) {
        Ok(base) => base,
        Err(k) => {
            return Err(Refusal {
                number: 8,
                place: k as u32,
            });
        }
    };
    let located = Located {
        code,
        shapes,
        bodies,
        classes,
        base,
    };
    let plain = sized_fits(&located, state);
    let counts = count_wanted(state, plain);
    let numbered = Numbered {
        state,
        records: counts.records,
        activations: counts.activations,
    };
    match walk_tests(&located, &numbered, &mut stack) {
        Err(at) => Err(Refusal {
            number: 9,
            place: at as u32,
        }),
        Ok(fit) => Ok(if plain & fit { Some(base) } else { None }),
    }
}

// A macro and a state's bytes, whatever they are: the refusal 8 or 9 of the loading check, or whether a sound state decodes from the bytes, and if so the place
// of the first instruction.
// The places of bodies and classes are left in `bodies` and `classes`. The index of shapes is cleared at each call, so that its size goes by the
// number of instructions.
pub fn inspect(
    code: &[u8],
    state: &[u8],
    bodies: &mut [u32],
    classes: &mut [u32],
) -> Result<Option<usize>, Refusal>
    requires { (64 ≤ length bodies.old) × (16 ≤ length classes.old) }
    ensures { Inspects code.now state.now bodies.new classes.new result }
{
    if load_check::bad_head(code) {
        return Err(Refusal {
            number: 8,
            place: 0,
        });
    }
    let instructions = words::wide::half_at(code, CODE_COUNT_AT);
    if instructions <= 512 {
        let mut shapes = [0u32; 64];
        return inspect_in(code, state, &mut shapes, bodies, classes, instructions);
    }
    if instructions <= 8192 {
        let mut shapes = [0u32; 1024];
        return inspect_in(code, state, &mut shapes, bodies, classes, instructions);
    }
    let mut shapes = [0u32; 8192];
    inspect_in(code, state, &mut shapes, bodies, classes, instructions)
}

// The loading check alone, by the same walk beside no state: a walk of its own would be a second caller of the rules' step, and cost both their speed
// (`load_rules::go_on`).
pub fn load(code: &[u8]) -> Result<(), Refusal>
    ensures { result ≡ loaded_of (judge_macro code.now) }
{
    let mut bodies = [0u32; MAX_BODIES];
    let mut classes = [0u32; MAX_CLASSES];
    let none = [0u8; 0];
    inspect(code, &none, &mut bodies, &mut classes)?;
    Ok(())
}
