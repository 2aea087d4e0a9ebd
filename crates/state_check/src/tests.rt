// The tests of a run state's bytes that need no state found by the loading rules: values, records, activations, holds, header.
ghost use Rattle.std.specs.Prelude.{◌≡◌, true, false, ◌||◌, ◌+◌, ◌*◌, ◌≤◌, ◌<◌, length, eqb};
ghost use Rattle.values.specs.Ends.{is_condition};
ghost use Rattle.load_places.specs.Records.{count};
ghost use Rattle.load_check.specs.Walk.{Stands};
ghost use Rattle.state_sound.specs.Each.{each};
ghost use Rattle.state_sound.specs.Fits.{address_in, points_to, value_fits, row_fits, record_fits, calls, frame_fits, held, groups_fit, running_fits, plain_fits};
ghost use Rattle.bytecode.specs.State.{state_length};

use formats::compiled::*;
use formats::limits::*;
use formats::state::*;
use formats::wide;
use load_check::Located;

// A state's bytes, and how many of its records and of its activations are to be tested: no more than a state has room for.
#[derive(Clone, Copy)]
pub struct Numbered<'a> {
    pub state: &'a [u8],
    pub records: usize,
    pub activations: usize,
    pub ghost small: { records ≤ 256 },
    pub ghost few: { activations ≤ 32 },
}

// Whether w is null or one of the records, of the class of type t.
fn points_to(of: &Numbered, t: usize, w: usize) -> bool
    requires { (length of.now.state.now ≡ state_length) × (16 ≤ t) }
    ensures { result ≡ points_to of.now.state.now of.now.records t w }
{
    if w == 0 {
        return true;
    }
    let k = w - 1;
    if of.records <= k {
        return false;
    }
    words::wide::byte_at(of.state, RECORDS_AT + RECORD_BYTES * k) == t - wide::TYPE_CLASS
}

// Whether the word w is a value of type t.
fn value_fits(code: &[u8], of: &Numbered, t: usize, w: usize) -> bool
    requires { (8 ≤ length code.now) × (length of.now.state.now ≡ state_length) }
    ensures { result ≡ value_fits code.now of.now.state.now of.now.records t w }
{
    let n = words::wide::byte_at(code, CLASS_COUNT_AT);
    if load_check::no_type(n, t) {
        return false;
    }
    if wide::TYPE_CLASS <= t {
        return points_to(of, t, w);
    }
    if t == wide::TYPE_LOGICAL {
        return w < 2;
    }
    true
}

// Whether as many values, with type bytes at t and words at w, are of the types that stand in `row` at `place`.
pub fn row_fits(
    code: &[u8],
    of: &Numbered,
    row: &[u8],
    place: usize,
    t: usize,
    w: usize,
    count: usize,
) -> bool
    requires { (8 ≤ length code.now) × (length of.now.state.now ≡ state_length) × (place + count ≤ length row.now) × (t + count ≤ state_length) × (w + 4 * count ≤ state_length) }
    ensures { result ≡ row_fits code.now of.now.state.now of.now.records row.now place t w count }
{
    let mut ok = true;
    // A fold takes its tests without a branch, so that it runs over many bytes at an even pace.
    for j in 0..count {
        let a = words::wide::byte_at(of.state, t + j);
        let b = words::wide::byte_at(row, place + j);
        let v = words::wide::word_at(of.state, w + WORD_BYTES * j);
        let f = value_fits(code, of, a, v);
        ok &= (a == b) & f;
    }
    ok
}

fn record_fits(at: &Located, of: &Numbered, k: usize) -> bool
    requires { (Stands at.now) × (length of.now.state.now ≡ state_length) × (k < 256) }
    ensures { result ≡ record_fits at.now.code.now of.now.state.now of.now.records k }
{
    let code = at.code;
    let p = RECORDS_AT + RECORD_BYTES * k;
    let a = words::wide::byte_at(of.state, p);
    let n = words::wide::byte_at(code, CLASS_COUNT_AT);
    if n <= a {
        return false;
    }
    let q = load_check::class_at(code, at.classes, a);
    let f = words::wide::byte_at(code, q + FIELD_COUNT_AT);
    row_fits(
        code,
        of,
        code,
        q + CLASS_BYTES,
        p + FIELD_TYPES_AT,
        p + FIELD_WORDS_AT,
        f,
    )
}

fn records_fit(at: &Located, of: &Numbered) -> bool
    requires { (Stands at.now) × (length of.now.state.now ≡ state_length) }
    ensures { result ≡ each (record_fits at.now.code.now of.now.state.now of.now.records) 0 of.now.records }
{
    let mut ok = true;
    for k in 0..of.records {
        let f = record_fits(at, of, k);
        ok &= f;
    }
    ok
}

// Whether activation k stands at a call of the next, if there is a next.
fn calls_next(at: &Located, of: &Numbered, k: usize) -> bool
    requires { (Stands at.now) × (length of.now.state.now ≡ state_length) × (k < of.now.activations) × (address_in of.now.state.now k < count at.now.code.now) }
    ensures { result ≡ calls at.now.code.now of.now.state.now of.now.activations k }
{
    let j = k + 1;
    if of.activations <= j {
        return true;
    }
    let i = words::wide::half_at(of.state, ACTIVATIONS_AT + ACTIVATION_BYTES * k + ADDRESS_AT);
    let x = load_check::instruction_at(at.code, at.base, i);
    if x.op != wide::OP_CALL {
        return false;
    }
    if x.a != 0 {
        return false;
    }
    x.b == words::wide::byte_at(of.state, ACTIVATIONS_AT + ACTIVATION_BYTES * j)
}

fn frame_fits(at: &Located, of: &Numbered, k: usize) -> bool
    requires { (Stands at.now) × (length of.now.state.now ≡ state_length) × (k < of.now.activations) }
    ensures { result ≡ frame_fits at.now.code.now of.now.state.now of.now.records of.now.activations k }
{
    let code = at.code;
    let state = of.state;
    let p = ACTIVATIONS_AT + ACTIVATION_BYTES * k;
    let b = words::wide::byte_at(state, p);
    let m = words::wide::byte_at(code, BODY_COUNT_AT);
    if m <= b {
        return false;
    }
    let q = load_check::body_at(code, at.bodies, b);
    let cells = words::wide::byte_at(code, q + CELL_COUNT_AT);
    if MAX_CELLS < cells {
        return false;
    }
    let depth = words::wide::byte_at(state, p + OPERAND_COUNT_AT);
    if MAX_OPERANDS < depth {
        return false;
    }
    let open = words::wide::byte_at(state, p + OWN_HOLD_COUNT_AT);
    if MAX_HOLDS < open {
        return false;
    }
    let i = words::wide::half_at(state, p + ADDRESS_AT);
    let count = words::wide::half_at(code, CODE_COUNT_AT);
    if count <= i {
        return false;
    }
    if !calls_next(at, of, k) {
        return false;
    }
    row_fits(
        code,
        of,
        code,
        q + BODY_BYTES,
        p + CELL_TYPES_AT,
        p + CELL_WORDS_AT,
        cells,
    )
}

fn frames_fit(at: &Located, of: &Numbered) -> bool
    requires { (Stands at.now) × (length of.now.state.now ≡ state_length) }
    ensures { result ≡ each (frame_fits at.now.code.now of.now.state.now of.now.records of.now.activations) 0 of.now.activations }
{
    let mut ok = true;
    for k in 0..of.activations {
        let f = frame_fits(at, of, k);
        ok &= f;
    }
    ok
}

// The open holds of all activations.
fn open_holds(of: &Numbered) -> usize
    requires { length of.now.state.now ≡ state_length }
    ensures { result ≡ held of.now.state.now of.now.activations }
{
    let mut sum: usize = 0;
    for k in 0..of.activations {
        sum += words::wide::byte_at(
            of.state,
            ACTIVATIONS_AT + ACTIVATION_BYTES * k + OWN_HOLD_COUNT_AT,
        );
    }
    sum
}

const LAST_GROUP: usize = GROUPS - 1;

// Whether the open holds are of groups 0 to 63.
fn groups_fit(state: &[u8], holds: usize) -> bool
    requires { length state.now ≡ state_length }
    ensures { result ≡ groups_fit state.now holds }
{
    if MAX_OPEN_HOLDS < holds {
        return false;
    }
    let mut ok = true;
    for j in 0..holds {
        ok &= words::wide::byte_at(state, HOLDS_AT + j) <= LAST_GROUP;
    }
    ok
}

fn running_fits(
    at: &Located,
    state: &[u8],
    records: usize,
    activations: usize,
    holds: usize,
) -> bool
    requires { (Stands at.now) × (length state.now ≡ state_length) }
    ensures { result ≡ running_fits at.now.code.now state.now activations records holds }
{
    if activations < 1 {
        return false;
    }
    if MAX_ACTIVATIONS < activations {
        return false;
    }
    if MAX_RECORDS < records {
        return false;
    }
    let of = Numbered {
        state,
        records,
        activations,
    };
    if words::wide::byte_at(state, ACTIVATIONS_AT) != 0 {
        return false;
    }
    if open_holds(&of) != holds {
        return false;
    }
    if !groups_fit(state, holds) {
        return false;
    }
    if !records_fit(at, &of) {
        return false;
    }
    frames_fit(at, &of)
}

fn is_end(x: u8) -> bool
    ensures { result ≡ (eqb x 0 || is_condition x) }
{
    x == 0 || values::is_condition(x)
}

// All of a state but where its activations stand.
pub fn plain_fits(at: &Located, state: &[u8]) -> bool
    requires { (Stands at.now) × (length state.now ≡ state_length) }
    ensures { result ≡ plain_fits at.now.code.now state.now }
{
    let phase = words::wide::byte_at(state, PHASE_AT);
    let condition = state[CONDITION_AT];
    let h = words::wide::half_at(state, HOLD_COUNT_AT);
    if phase == wide::RUNNING {
        let n = words::wide::byte_at(state, ACTIVATION_COUNT_AT);
        let r = words::wide::half_at(state, RECORD_COUNT_AT);
        return running_fits(at, state, r, n, h);
    }
    if phase == wide::RELEASING {
        return values::is_condition(condition) && groups_fit(state, h);
    }
    if phase == wide::ENDED {
        return is_end(condition);
    }
    false
}
