// The record pass: whether a macro's records read, and where each class, body and shape stands.
#![tactic(auto)]

ghost use Rattle.std.specs.Prelude.{◌≡◌, true, false, cond, not, ◌&&◌, ◌||◌, ℕ, ◌+◌, ◌*◌, ◌/◌, ◌-◌, ◌≤◌, ◌<◌, length, set, eqb, ltb, IfOk};
ghost use Rattle.load_places.specs.Search.{first};
ghost use Rattle.load_places.specs.Records.{classes as class_count, count, class_place, body_place, code_base, shape_place, no_mark, no_type, bad_types, bad_head, bad_class};
ghost use Rattle.load_places.specs.Records.{rises, body_fits, bad_body, bad_code, shape_fits, bad_shape, read_end, read_records};
ghost use Rattle.load_places.specs.Index.{Indexed, Placed};
ghost use Rattle.load_records.specs.Answer.{typed_fits, read_of, Left, Passes, Meets};

use formats::compiled::*;
use formats::limits::*;
use formats::wide;
use load_places::SHAPE_GROUP;

// Whether the bytes a, b are not the mark x, y.
fn unmarked(a: u8, b: u8, x: u8, y: u8) -> bool
    ensures { result ≡ not (eqb a x && eqb b y) }
{
    if a == x { b != y } else { true }
}

// A choice without a branch, for the loops that do not leave at the first that they look for.
fn pick(test: bool, yes: usize, no: usize) -> usize
    ensures { result ≡ cond test yes no }
{
    if test { yes } else { no }
}

// Whether no record of that size with the mark x, y stands at the place.
fn no_mark(code: &[u8], place: usize, size: usize, x: u8, y: u8) -> bool
    requires { (place < 4294967296) × (2 ≤ size) × (size < 256) }
    ensures { result ≡ no_mark code.now place size x y }
{
    if code.len() < place + size {
        return true;
    }
    unmarked(code[place], code[place + 1], x, y)
}

// Whether a byte is no type where there are so many classes.
pub fn no_type(classes: usize, byte: usize) -> bool
    ensures { result ≡ no_type classes byte }
{
    if byte < wide::TYPE_CLASS {
        if byte < wide::TYPE_INTEGER {
            return true;
        }
        return wide::TYPE_BITS < byte;
    }
    classes <= byte - wide::TYPE_CLASS
}

// A macro's bytes, with the numbers of classes and of instructions that its head tells.
#[derive(Clone, Copy)]
struct Headed<'a> {
    code: &'a [u8],
    classes: usize,
    instructions: usize,
    ghost of_classes: { classes ≡ class_count code.now },
    ghost of_code: { instructions ≡ count code.now },
}

// Whether one of so many bytes from the place is no type. The loop does not leave at the first: it is short, and goes on without a branch.
fn bad_types(of: &Headed, place: usize, size: usize) -> bool
    requires { place + size ≤ length of.now.code.now }
    ensures { result ≡ bad_types of.now.code.now place size }
{
    let mut bad = size;
    for i in (0..size).rev() {
        bad = pick(
            no_type(of.classes, words::wide::byte_at(of.code, place + i)),
            i,
            bad,
        );
    }
    bad < size
}

// The counts' most, as bytes.
const CLASSES: u8 = MAX_CLASSES as u8;

const BODIES: u8 = MAX_BODIES as u8;

pub fn bad_head(code: &[u8]) -> bool
    ensures { result ≡ bad_head code.now }
{
    if no_mark(code, 0, HEAD_BYTES, b'H', b'D') {
        return true;
    }
    if CLASSES < code[CLASS_COUNT_AT] {
        return true;
    }
    if code[BODY_COUNT_AT] < 1 {
        return true;
    }
    BODIES < code[BODY_COUNT_AT]
}

// Whether a record of that size with the mark x, y stands at the place, and after it as many types as its byte at `counts` says.
fn typed_fits(of: &Headed, place: usize, size: usize, counts: usize, x: u8, y: u8) -> bool
    requires { (place < 4294967296) × (2 ≤ size) × (size < 256) × (counts < size) }
    ensures { result ≡ typed_fits of.now.code.now place size counts x y }
{
    let code = of.code;
    if no_mark(code, place, size, x, y) {
        return false;
    }
    let types = words::wide::byte_at(code, place + counts);
    if code.len() < place + size + types {
        return false;
    }
    !bad_types(of, place + size, types)
}

// Whether the class whose record stands at the place is bad.
fn bad_class(of: &Headed, place: usize) -> bool
    requires { place < 4294967296 }
    ensures { (k : ℕ) → place ≡ class_place of.now.code.now k → result ≡ bad_class of.now.code.now k }
{
    if !typed_fits(of, place, CLASS_BYTES, FIELD_COUNT_AT, b'C', b'L') {
        return true;
    }
    let fields = words::wide::byte_at(of.code, place + FIELD_COUNT_AT);
    if fields < 1 {
        return true;
    }
    MAX_FIELDS < fields
}

// A result is none, 0, or a type.
fn result_fits(classes: usize, byte: usize) -> bool
    ensures { result ≡ (eqb byte 0 || not (no_type classes byte)) }
{
    if byte == 0 {
        return true;
    }
    !no_type(classes, byte)
}

// A body's record, all but that its first address rises.
fn body_fits(of: &Headed, place: usize) -> bool
    requires { place < 4294967296 }
    ensures { result ≡ body_fits of.now.code.now place }
{
    let code = of.code;
    if !typed_fits(of, place, BODY_BYTES, CELL_COUNT_AT, b'B', b'D') {
        return false;
    }
    if !result_fits(of.classes, words::wide::byte_at(code, place + RESULT_AT)) {
        return false;
    }
    let cells = words::wide::byte_at(code, place + CELL_COUNT_AT);
    if cells < words::wide::byte_at(code, place + PARAMETER_COUNT_AT) {
        return false;
    }
    words::wide::half_at(code, place + FIRST_AT) < of.instructions
}

fn rises_from(k: usize, last: usize, address: usize) -> bool
    ensures { result ≡ rises k last address }
{
    if k == 0 {
        return address == 0;
    }
    last < address
}

// A shape's record, all but that its address rises.
fn shape_fits(of: &Headed, place: usize) -> bool
    requires { place < 4294967296 }
    ensures { result ≡ shape_fits of.now.code.now place }
{
    if !typed_fits(of, place, SHAPE_BYTES, SHAPE_DEPTH_AT, b'S', b'H') {
        return false;
    }
    words::wide::half_at(of.code, place + SHAPE_ADDRESS_AT) < of.instructions
}

fn read_end(code: &[u8], place: usize, index: usize) -> Result<(), usize>
    requires { (place < 4294967296) × (index < 4294967296) }
    ensures { read_of result ≡ read_end code.now place index }
{
    if no_mark(code, place, END_BYTES, b'Z', b'Z') {
        return Err(index);
    }
    if code.len() == place + END_BYTES {
        Ok(())
    } else {
        Err(index + 1)
    }
}

// Each pass over the records of a kind answers the place behind the last of them, or how many read before the first that does not.
//
// The classes; their places go to the index.
fn classes_pass(of: &Headed, classes: &mut [u32]) -> Result<usize, usize>
    requires { (of.now.classes ≤ 16) × (16 ≤ length classes.old) }
    ensures passes { Passes (bad_class of.now.code.now) (class_place of.now.code.now) of.now.classes result }
    ensures within { IfOk result (λ p. p < 8192) }
    ensures placed { IfOk result (λ p. Placed (class_place of.now.code.now) classes.new of.now.classes) }
{
    let code = of.code;
    let mut p: usize = HEAD_BYTES;
    for k in 0..of.classes {
        if bad_class(of, p) {
            return Err(k);
        }
        classes[k] = p as u32;
        p = p + CLASS_BYTES + words::wide::byte_at(code, p + FIELD_COUNT_AT);
    }
    Ok(p)
}

// The bodies, from the first one's place; their places go to the index.
fn bodies_pass(of: &Headed, bodies: &mut [u32], from: usize, total: usize) -> Result<usize, usize>
    requires { (from ≡ body_place of.now.code.now 0) × (from < 8192) × (total ≤ 64) × (64 ≤ length bodies.old) }
    ensures passes { Passes (bad_body of.now.code.now) (body_place of.now.code.now) total result }
    ensures within { IfOk result (λ p. p < 65536) }
    ensures placed { IfOk result (λ p. Placed (body_place of.now.code.now) bodies.new total) }
{
    let code = of.code;
    let mut p: usize = from;
    let mut last: usize = 0;
    for k in 0..total {
        if !body_fits(of, p) {
            return Err(k);
        }
        let a = words::wide::half_at(code, p + FIRST_AT);
        if !rises_from(k, last, a) {
            return Err(k);
        }
        bodies[k] = p as u32;
        last = a;
        p = p + BODY_BYTES + words::wide::byte_at(code, p + CELL_COUNT_AT);
    }
    Ok(p)
}

// How many of the instructions, from base, stand whole within len bytes.
fn whole_code(len: usize, base: usize, instructions: usize) -> usize
    ensures { (result ≤ instructions) × (result < instructions → len < base + 8 * result + 8) × ((k : ℕ) → k < result → base + 8 * k + 8 ≤ len) }
{
    if len < base {
        return 0;
    }
    let k = (len - base) / CODE_BYTES;
    if k < instructions {
        return k;
    }
    instructions
}

// The instructions. Their marks are looked at without a branch, from the last to the first.
fn code_pass(code: &[u8], base: usize, instructions: usize) -> Result<(), usize>
    requires { (base ≡ code_base code.now) × (base < 65536) × (instructions < 65536) }
    ensures { Meets (bad_code code.now) instructions result }
{
    let whole = whole_code(code.len(), base, instructions);
    let mut bad = whole;
    for i in (0..whole).rev() {
        let p = base + CODE_BYTES * i;
        bad = pick(unmarked(code[p], code[p + 1], b'I', b'N'), i, bad);
    }
    if bad < instructions { Err(bad) } else { Ok(()) }
}

// The index of shapes gets the place of an address's shape if it is the first of its group: if the least address that it may have is not past the
// group's first.
fn note_shape(shapes: &mut [u32], least: usize, address: usize, place: usize)
    requires { (address < 8 * length shapes.old) × (address < 65536) × (place < 4294967296) }
    ensures { shapes.new ≡ cond (ltb (8 * (address / 8)) least) shapes.old (set shapes.old (address / 8) place) }
{
    let group = address / SHAPE_GROUP;
    if SHAPE_GROUP * group < least {
        return;
    }
    shapes[group] = place as u32;
}

// The shapes, from the first one's place.
fn shapes_pass(of: &Headed, shapes: &mut [u32], from: usize, total: usize) -> Result<usize, usize>
    requires { (from ≡ shape_place of.now.code.now 0) × (from < 1000000) × (total < 65536) × (of.now.instructions ≤ 8 * length shapes.old)
        × (Indexed of.now.code.now shapes.old of.now.instructions 0) }
    ensures passes { Passes (bad_shape of.now.code.now) (shape_place of.now.code.now) total result }
    ensures within { IfOk result (λ p. p < 4294967296) }
    ensures indexed { IfOk result (λ p. Indexed of.now.code.now shapes.new of.now.instructions total) }
{
    let code = of.code;
    let mut p: usize = from;
    let mut least: usize = 0;
    for k in 0..total {
        if !shape_fits(of, p) {
            return Err(k);
        }
        let a = words::wide::half_at(code, p + SHAPE_ADDRESS_AT);
        if a < least {
            return Err(k);
        }
        note_shape(shapes, least, a, p);
        least = a + 1;
        p = p + SHAPE_BYTES + words::wide::byte_at(code, p + SHAPE_DEPTH_AT);
    }
    Ok(p)
}

// The records after the head, into indexes that hold nothing yet: the place of the first instruction, or the index of the first record that does
// not read.
pub fn scan(
    code: &[u8],
    shapes: &mut [u32],
    bodies: &mut [u32],
    classes: &mut [u32],
    instructions: usize,
) -> Result<usize, usize>
    requires { (bad_head code.now ≡ false) × (instructions ≡ count code.now) × (instructions ≤ 8 * length shapes.old) × (64 ≤ length bodies.old)
        × (16 ≤ length classes.old) × (Indexed code.now shapes.old instructions 0) }
    ensures { (read_of result ≡ read_records code.now) × Left code.now shapes.new bodies.new classes.new result }
{
    let class_count = words::wide::byte_at(code, CLASS_COUNT_AT);
    let body_count = words::wide::byte_at(code, BODY_COUNT_AT);
    let shape_count = words::wide::half_at(code, SHAPE_COUNT_AT);
    let of = Headed {
        code,
        classes: class_count,
        instructions,
    };
    let bodies_from = classes_pass(&of, classes).map_err(|k| 1 + k)?;
    let before_bodies = 1 + class_count;
    let base = bodies_pass(&of, bodies, bodies_from, body_count).map_err(|k| before_bodies + k)?;
    let before_code = before_bodies + body_count;
    code_pass(code, base, instructions).map_err(|k| before_code + k)?;
    let shapes_from = base + CODE_BYTES * instructions;
    let before_shapes = before_code + instructions;
    let end = shapes_pass(&of, shapes, shapes_from, shape_count).map_err(|k| before_shapes + k)?;
    read_end(code, end, before_shapes + shape_count)?;
    Ok(base)
}
