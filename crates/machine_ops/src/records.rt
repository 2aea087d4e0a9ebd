// Ops 12, 13 and 14. A reference is 0 for null, else 1 more than the record's number.
ghost use Rattle.std.specs.Prelude.{◌≡◌, ◌+◌, ◌*◌, ◌-◌, ◌≤◌, ◌<◌};
ghost use Rattle.words.specs.Numbers.{word_at};
ghost use Rattle.load_places.specs.Records.{classes, class_place};
ghost use Rattle.bytecode.specs.Machine.{do_make, do_get_field, do_put_field};
ghost use Rattle.machine_ops.specs.Acts.{Room, Tells};
ghost use Rattle.machine_ops.specs.Moves.{TellsOf, MakeRoom, FieldRoom};
ghost use Rattle.bytecode.specs.State.{operand_words_at};

use crate::operands::op_condition;
use crate::{Out, moves};
use formats::compiled::*;
use formats::limits::*;
use formats::state::*;

// The count when no record more is made.
const FULL: u16 = MAX_RECORDS as u16;

// The 257th record is not made. The class's record stands at `place`.
pub fn op_make(
    code: &[u8],
    place: usize,
    state: &mut [u8],
    frame: usize,
    depth: usize,
    address: u16,
    c: u8,
) -> Out
    requires { (Room state.old frame depth address) × (place ≡ class_place code.now c) × (c < classes code.now) × (c < 16) × (MakeRoom code.now place depth) }
    ensures { TellsOf code.now (λ m h. do_make m c h) state.old frame depth address state.new result }
{
    let r = words::half_at(state, RECORD_COUNT_AT);
    if FULL <= r {
        return op_condition(state, frame, depth, address, values::TOO_MANY_RECORDS);
    }
    let k = machine_frames::wide(code[place + FIELD_COUNT_AT]);
    machine_frames::make_record(state, r, c);
    let fields = RECORDS_AT + RECORD_BYTES * (r as usize);
    moves::move_operands(
        state,
        frame,
        depth - k,
        fields + FIELD_WORDS_AT,
        fields + FIELD_TYPES_AT,
        k,
    );
    moves::drop_operands(state, frame, depth, k);
    machine_frames::push(state, frame, depth - k, (r as u32) + 1, TYPE_CLASS + c);
    machine_frames::go_to(state, frame, address + 1);
    Out::Goes
}

pub fn op_get_field(
    state: &mut [u8],
    frame: usize,
    depth: usize,
    address: u16,
    c: u8,
    b: usize,
) -> Out
    requires { (Room state.old frame depth address) × (0 < depth)
        × ((word_at state.old (frame + (operand_words_at + 4 * (depth - 1))) ≡ 0 → ⊥) → FieldRoom (word_at state.old (frame + (operand_words_at + 4 * (depth - 1)))) b) }
    ensures { Tells (λ m h. do_get_field m c b h) state.old frame depth address state.new result }
{
    let k = depth - 1;
    let r = machine_frames::operand_word(state, frame, k);
    if r == 0 {
        return op_condition(state, frame, depth, address, values::FIELD_OF_NULL);
    }
    let x = (r as usize) - 1;
    let w = machine_frames::field_word(state, x, b);
    let t = machine_frames::field_type(state, x, b);
    machine_frames::put_operand(state, frame, k, w, t);
    machine_frames::go_to(state, frame, address + 1);
    Out::Goes
}

// The value is on top of the reference.
pub fn op_put_field(
    state: &mut [u8],
    frame: usize,
    depth: usize,
    address: u16,
    c: u8,
    b: usize,
) -> Out
    requires { (Room state.old frame depth address) × (2 ≤ depth)
        × ((word_at state.old (frame + (operand_words_at + 4 * (depth - 2))) ≡ 0 → ⊥) → FieldRoom (word_at state.old (frame + (operand_words_at + 4 * (depth - 2)))) b) }
    ensures { Tells (λ m h. do_put_field m c b h) state.old frame depth address state.new result }
{
    let k = depth - 1;
    let j = depth - 2;
    let r = machine_frames::operand_word(state, frame, j);
    if r == 0 {
        return op_condition(state, frame, depth, address, values::FIELD_OF_NULL);
    }
    let w = machine_frames::operand_word(state, frame, k);
    let t = machine_frames::operand_type(state, frame, k);
    machine_frames::put_field(state, (r as usize) - 1, b, w, t);
    machine_frames::pop(state, frame, k);
    machine_frames::pop(state, frame, j);
    machine_frames::go_to(state, frame, address + 1);
    Out::Goes
}
