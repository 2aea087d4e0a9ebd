// Makes 0 all bytes of a run state that a sound state does not use, so that they are the state's encoding.
ghost use Rattle.std.specs.Prelude.{◌≡◌, [], ◌∷◌, ◌+◌, ◌*◌, ◌≤◌, ◌<◌, length};
ghost use Rattle.words.specs.Numbers.{byte_at, half_at};
ghost use Rattle.load_places.specs.Records.{classes as class_count, bodies as body_count};
ghost use Rattle.load_check.specs.Views.{view};
ghost use Rattle.bytecode_layout.specs.Cleared.{◌⋯◌, wipes, activation_gaps, record_gaps, cell_count, field_count, clear_activations, clear_records, clear_running};
ghost use Rattle.load_check.specs.Lookups.{Bodied, Classed};
ghost use Rattle.state_check.specs.Inspecting.{Held};
ghost use Rattle.state_write.specs.Clearing.{Below, Uncleared, Encodes};
ghost use Rattle.bytecode.specs.State.{activation_length, holds_at, record_length, records_at, state_length};

use formats::compiled::*;
use formats::state::*;
use formats::wide;

// The ends of the numbers that bytes not in use stand behind.
const AFTER_CONDITION: usize = CONDITION_AT + 1;

const AFTER_ACTIVATION_COUNT: usize = ACTIVATION_COUNT_AT + 1;

const AFTER_HOLD_COUNT: usize = HOLD_COUNT_AT + 2;

const AFTER_OWN_HOLD_COUNT: usize = OWN_HOLD_COUNT_AT + 1;

const AFTER_ADDRESS: usize = ADDRESS_AT + 2;

const AFTER_CLASS: usize = 1; // a record begins with its class

// The bytes from one place up to another, both counted from `place`: none where the first is not before the second. So no count of
// cells, operands, fields or holds has to be within its limit here; that the first is below 131,072 keeps the sum from overflow.
fn wipe(state: &mut [u8], place: usize, from: usize, to: usize)
    requires { (length state.old ≡ state_length) × (place + to ≤ state_length) × (from < 131072) }
    ensures { state.new ≡ wipes state.old place ((from ⋯ to) ∷ []) }
{
    for i in place + from..place + to {
        state[i] = 0;
    }
}

// The activation at `place`, which has as many cells and operands.
fn wipe_activation(state: &mut [u8], place: usize, cells: usize, operands: usize)
    requires { (length state.old ≡ state_length) × (place + activation_length ≤ state_length) × (cells < 256) × (operands < 256) }
    ensures { state.new ≡ wipes state.old place (activation_gaps cells operands) }
{
    wipe(state, place, AFTER_OWN_HOLD_COUNT, ADDRESS_AT);
    wipe(state, place, AFTER_ADDRESS, CELL_WORDS_AT);
    wipe(
        state,
        place,
        CELL_WORDS_AT + WORD_BYTES * cells,
        OPERAND_WORDS_AT,
    );
    wipe(
        state,
        place,
        OPERAND_WORDS_AT + WORD_BYTES * operands,
        CELL_TYPES_AT,
    );
    wipe(state, place, CELL_TYPES_AT + cells, OPERAND_TYPES_AT);
    wipe(state, place, OPERAND_TYPES_AT + operands, ACTIVATION_BYTES);
}

// The record at `place`, which has as many fields.
fn wipe_record(state: &mut [u8], place: usize, fields: usize)
    requires { (length state.old ≡ state_length) × (place + record_length ≤ state_length) × (fields < 256) }
    ensures { state.new ≡ wipes state.old place (record_gaps fields) }
{
    wipe(state, place, AFTER_CLASS, FIELD_WORDS_AT);
    wipe(
        state,
        place,
        FIELD_WORDS_AT + WORD_BYTES * fields,
        FIELD_TYPES_AT,
    );
    wipe(state, place, FIELD_TYPES_AT + fields, RECORD_BYTES);
}

fn clear_activation(code: &[u8], bodies: &[u32], state: &mut [u8], place: usize)
    requires { (Bodied code.now bodies.now) × (length state.old ≡ state_length) × (place + activation_length ≤ state_length) × (byte_at state.old place < body_count code.now) }
    ensures { state.new ≡ wipes state.old place (activation_gaps (cell_count (view code.now) (byte_at state.old place))
        (byte_at state.old (place + 1))) }
{
    let k = words::wide::byte_at(state, place);
    let operands = words::wide::byte_at(state, place + OPERAND_COUNT_AT);
    let q = load_check::body_at(code, bodies, k);
    let cells = words::wide::byte_at(code, q + CELL_COUNT_AT);
    wipe_activation(state, place, cells, operands);
}

fn clear_record(code: &[u8], classes: &[u32], state: &mut [u8], place: usize)
    requires { (Classed code.now classes.now) × (length state.old ≡ state_length) × (place + record_length ≤ state_length) × (byte_at state.old place < class_count code.now) }
    ensures { state.new ≡ wipes state.old place (record_gaps (field_count (view code.now) (byte_at state.old place))) }
{
    let a = words::wide::byte_at(state, place);
    let q = load_check::class_at(code, classes, a);
    let fields = words::wide::byte_at(code, q + FIELD_COUNT_AT);
    wipe_record(state, place, fields);
}

fn clear_activations(code: &[u8], bodies: &[u32], state: &mut [u8], count: usize)
    requires { (Bodied code.now bodies.now) × (length state.old ≡ state_length) × (count ≤ 32) × (Below (body_count code.now) activation_length state.old 32 count) }
    ensures { state.new ≡ clear_activations (view code.now) count 32 state.old }
{
    let mut place: usize = ACTIVATIONS_AT;
    for i in 0..count {
        clear_activation(code, bodies, state, place);
        place += ACTIVATION_BYTES;
    }
}

fn clear_records(code: &[u8], classes: &[u32], state: &mut [u8], count: usize)
    requires { (Classed code.now classes.now) × (length state.old ≡ state_length) × (count ≤ 256) × (Below (class_count code.now) record_length state.old records_at count) }
    ensures { state.new ≡ clear_records (view code.now) count records_at state.old }
{
    let mut place: usize = RECORDS_AT;
    for i in 0..count {
        clear_record(code, classes, state, place);
        place += RECORD_BYTES;
    }
}

fn clear_header(state: &mut [u8])
    requires { length state.old ≡ state_length }
    ensures { state.new ≡ wipes state.old 0 ((1 ⋯ 2) ∷ (3 ⋯ 4) ∷ (8 ⋯ 32) ∷ []) }
{
    wipe(state, 0, CONDITION_AT, ACTIVATION_COUNT_AT);
    wipe(state, 0, AFTER_ACTIVATION_COUNT, RECORD_COUNT_AT);
    wipe(state, 0, AFTER_HOLD_COUNT, ACTIVATIONS_AT);
}

// The room behind the activations and behind the open holds.
fn clear_room(state: &mut [u8], activations: usize, holds: usize)
    requires { (length state.old ≡ state_length) × (activations ≤ 32) × (holds < 65536) }
    ensures { state.new ≡ wipes state.old 0 ((32 + activation_length * activations ⋯ holds_at) ∷ (holds_at + holds ⋯ records_at) ∷ []) }
{
    wipe(
        state,
        0,
        ACTIVATIONS_AT + ACTIVATION_BYTES * activations,
        HOLDS_AT,
    );
    wipe(state, 0, HOLDS_AT + holds, RECORDS_AT);
}

fn clear_running(code: &[u8], bodies: &[u32], classes: &[u32], state: &mut [u8])
    requires { (Bodied code.now bodies.now) × (Classed code.now classes.now) × (length state.old ≡ state_length) × (Uncleared code.now state.old) }
    ensures { state.new ≡ clear_running (view code.now) (byte_at state.old 2) (half_at state.old 4) (half_at state.old 6)
        state.old }
{
    let n = words::wide::byte_at(state, ACTIVATION_COUNT_AT);
    let r = words::wide::half_at(state, RECORD_COUNT_AT);
    let h = words::wide::half_at(state, HOLD_COUNT_AT);
    clear_header(state);
    clear_activations(code, bodies, state, n);
    clear_room(state, n, h);
    clear_records(code, classes, state, r);
    wipe(state, 0, RECORDS_AT + RECORD_BYTES * r, STATE_BYTES);
}

fn clear_releasing(state: &mut [u8])
    requires { length state.old ≡ state_length }
    ensures { state.new ≡ wipes state.old 0 ((2 ⋯ 6) ∷ (8 ⋯ holds_at) ∷ (holds_at + half_at state.old 6 ⋯ state_length) ∷ []) }
{
    let h = words::wide::half_at(state, HOLD_COUNT_AT);
    wipe(state, 0, ACTIVATION_COUNT_AT, HOLD_COUNT_AT);
    wipe(state, 0, AFTER_HOLD_COUNT, HOLDS_AT);
    wipe(state, 0, HOLDS_AT + h, STATE_BYTES);
}

// The bytes, which hold a sound state of the macro, become that state's encoding.
pub fn clear(code: &[u8], bodies: &[u32], classes: &[u32], state: &mut [u8])
    requires { (Held code.now state.old) × (Bodied code.now bodies.now) × (Classed code.now classes.now) }
    ensures { Encodes code.now state.old state.new }
{
    let phase = words::wide::byte_at(state, PHASE_AT);
    if phase == wide::RUNNING {
        clear_running(code, bodies, classes, state);
        return;
    }
    if phase == wide::RELEASING {
        clear_releasing(state);
        return;
    }
    wipe(state, 0, AFTER_CONDITION, STATE_BYTES);
}
