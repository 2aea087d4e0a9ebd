// The front of a macro: HD, the CL records and the BD records.
#![tactic(auto)]

ghost use Rattle.std.specs.Prelude.{◌≡◌, ◌∷◌, ◌++◌, ◌+◌, ◌-◌, ◌*◌, ◌/◌, ◌%◌, ◌≤◌, ◌<◌, length, get_or, replicate};
ghost use Rattle.std.proofs.lemmas.List.Edits.{sets};
ghost use Rattle.words.specs.Numbers.{half, half_at, word_at};
ghost use Rattle.language.specs.Tree.{Tree};
ghost use Rattle.language_laws.specs.Claims.{entries_of};
ghost use Rattle.compile_code.specs.Encode.{compiled};
ghost use Rattle.compile_bytes.specs.Whole.{front};
ghost use Rattle.compile_symbols.specs.Numbers.{cells_within};
ghost use Rattle.compile_symbols.specs.Tabled.{Headed, Within, between, part_at};
ghost use Rattle.compile_front.specs.Told.{TypesKnown};
ghost use Rattle.compile_front.specs.Bodies.{body_of};
ghost use Rattle.compile_front.specs.Writing.{Wrote};
ghost use Rattle.compile_front.specs.Front.{body_head, type_at, types_between, class_at, body_at, Brief, first_after, after_head, root_types};
ghost use Rattle.compile_front.specs.Front.{classes_front, variables_front, procs_front, Ended, Measuring, Fronted};

use formats::compiled::*;
use formats::entries::*;

// What the front is read from: the table, the sizes of its entries, what its definitions stand for, and how many declarations its root has.
#[derive(Clone, Copy)]
struct Source<'a> {
    table: &'a [u8],
    sizes: &'a [u16],
    known: &'a [u32],
    count: usize,
}

// How many types the entries from a place to another have: each is one byte of a CL or BD record. A case has one, and a for three.
fn typed_in(table: &[u8], from: usize, to: usize) -> usize
    requires { (from ≤ to) × (to ≤ length table.now / 8) }
    ensures { result ≡ cells_within (between from to (entries_of table.now)) }
{
    let mut n = 0;
    for i in from..to {
        n += compile_symbols::cells_of(table_entries::kind_at(table, i));
    }
    n
}

// The length of the front: 3 bytes a class, 7 a body, and the types.
pub fn length(table: &[u8], classes: usize, bodies: usize) -> usize
    requires { (t : Tree) × Measuring t table.now classes bodies }
    ensures { (t : Tree) → Measuring t table.now classes bodies → result ≡ length (front (compiled t)) }
{
    HEAD_BYTES
        + CLASS_BYTES * classes
        + BODY_BYTES * bodies
        + typed_in(table, 0, table.len() / ENTRY_BYTES)
}

// ── types ──
// A byte so many times.
fn put_same(ty: u8, count: usize, out: &mut [u8], from: usize) -> usize
    requires { from + count ≤ length out.old }
    ensures { Wrote out.old from (replicate count ty) out.new result }
{
    let end = from + count;
    out[from..end].fill(ty);
    end
}

// The byte of an entry's type, for each of its cells.
fn put_type(source: &Source, i: usize, out: &mut [u8], at: usize) -> usize
    requires { TypesKnown source.now.table.now source.now.known.now × (1 ≤ i) × (i < length source.now.table.now / 8)
        × (at + length (type_at source.now.table.now i) ≤ length out.old) }
    ensures { Wrote out.old at (type_at source.now.table.now i) out.new result }
{
    let cells = compile_symbols::cells_of(table_entries::kind_at(source.table, i));
    put_same(compile_symbols::type_in(source.known[i]), cells, out, at)
}

// Of the entries from a place to another.
fn put_types(source: &Source, from: usize, to: usize, out: &mut [u8], at: usize) -> usize
    requires { TypesKnown source.now.table.now source.now.known.now × (1 ≤ from) × (from ≤ to) × (to ≤ length source.now.table.now / 8)
        × (at + length (types_between source.now.table.now from to) ≤ length out.old) }
    ensures { Wrote out.old at (types_between source.now.table.now from to) out.new result }
{
    let mut place = at;
    for i in from..to {
        place = put_type(source, i, out, place);
    }
    place
}

// ── classes ──
// A class with the entries of its fields up to another place.
fn put_class(source: &Source, place: usize, end: usize, out: &mut [u8], at: usize) -> usize
    requires { TypesKnown source.now.table.now source.now.known.now × (place < end) × (end ≤ length source.now.table.now / 8) × (end ≤ place + 256)
        × (at + (3 + length (types_between source.now.table.now (place + 1) end)) ≤ length out.old) }
    ensures { Wrote out.old at (67 ∷ 76 ∷ (end - (place + 1)) ∷ types_between source.now.table.now (place + 1) end) out.new result }
{
    out[at] = b'C';
    out[at + 1] = b'L';
    out[at + FIELD_COUNT_AT] = (end - (place + 1)) as u8;
    put_types(source, place + 1, end, out, at + CLASS_BYTES)
}

// A declaration of the root, if it is a class.
fn put_if_class(source: &Source, place: usize, out: &mut [u8], at: usize) -> usize
    requires { TypesKnown source.now.table.now source.now.known.now × Within source.now.table.now source.now.sizes.now place
        × (half_at source.now.table.now (8 * place) ≡ 11 → get_or source.now.sizes.now place 0 ≤ 256)
        × (at + length (class_at source.now.table.now source.now.sizes.now place) ≤ length out.old) }
    ensures { Wrote out.old at (class_at source.now.table.now source.now.sizes.now place) out.new result }
{
    if table_entries::kind_at(source.table, place) == KIND_CLASS {
        let end = place + table_scopes::size_at(source.sizes, place);
        return put_class(source, place, end, out, at);
    }
    at
}

fn put_classes(source: &Source, out: &mut [u8], from: usize) -> usize
    requires { Headed source.now.table.now source.now.sizes.now source.now.count × TypesKnown source.now.table.now source.now.known.now
        × (from + length (classes_front source.now.table.now) ≤ length out.old) }
    ensures { Wrote out.old from (classes_front source.now.table.now) out.new result }
{
    let mut place = 1;
    let mut at = from;
    for i in 0..source.count {
        at = put_if_class(source, place, out, at);
        place += table_scopes::size_at(source.sizes, place);
    }
    at
}

// ── bodies ──
// A BD record up to its cell types.
fn put_body(out: &mut [u8], at: usize, first: u16, parameters: u8, res: u8, cells: u8)
    requires { at + 7 ≤ length out.old }
    ensures { out.new ≡ sets out.old at (body_head first parameters res cells) }
{
    out[at] = b'B';
    out[at + 1] = b'D';
    words::put_half(out, at + FIRST_AT, first);
    out[at + PARAMETER_COUNT_AT] = parameters;
    out[at + RESULT_AT] = res;
    out[at + CELL_COUNT_AT] = cells;
}

// The types of the root's variables.
fn put_variables(source: &Source, out: &mut [u8], from: usize) -> usize
    requires { Headed source.now.table.now source.now.sizes.now source.now.count × TypesKnown source.now.table.now source.now.known.now
        × (from + length (variables_front source.now.table.now) ≤ length out.old) }
    ensures { Wrote out.old from (variables_front source.now.table.now) out.new result }
{
    let mut place = 1;
    let mut at = from;
    for i in 0..source.count {
        at = put_type(source, place, out, at);
        place += table_scopes::size_at(source.sizes, place);
    }
    at
}

// The root, whose items begin at the entry `after`.
fn put_root(source: &Source, after: usize, out: &mut [u8], at: usize) -> usize
    requires { Headed source.now.table.now source.now.sizes.now source.now.count × TypesKnown source.now.table.now source.now.known.now × (after ≡ after_head source.now.table.now)
        × (length (root_types source.now.table.now) ≤ 255) × (at + (7 + length (root_types source.now.table.now)) ≤ length out.old) }
    ensures { Wrote out.old at (body_of 0 0 0 (root_types source.now.table.now)) out.new result }
{
    let types = put_variables(source, out, at + BODY_BYTES);
    let end = put_types(source, after, source.table.len() / ENTRY_BYTES, out, types);
    put_body(out, at, 0, 0, 0, (end - at - BODY_BYTES) as u8);
    end
}

// A procedure with its entries up to another place.
fn put_procedure(
    source: &Source,
    place: usize,
    end: usize,
    first: u16,
    out: &mut [u8],
    at: usize,
) -> usize
    requires { TypesKnown source.now.table.now source.now.known.now × (place < end) × (end ≤ length source.now.table.now / 8) × (word_at source.now.table.now (8 * place + 4) < 65536)
        × (length (types_between source.now.table.now (place + 1) end) ≤ 255) × (at + (7 + length (types_between source.now.table.now (place + 1) end)) ≤ length out.old) }
    ensures { Wrote out.old at (body_of first (word_at source.now.table.now (8 * place + 4) / 256)
        (word_at source.now.table.now (8 * place + 4) % 256) (types_between source.now.table.now (place + 1) end)) out.new result }
{
    let heading = table_entries::b_at(source.table, place);
    let last = put_types(source, place + 1, end, out, at + BODY_BYTES);
    put_body(
        out,
        at,
        first,
        (heading / 256) as u8,
        (heading % 256) as u8,
        (last - at - BODY_BYTES) as u8,
    );
    last
}

// A declaration of the root, if it is a procedure.
// Kept (point 2) beside put_if_class: one function of both would take each record's writer and what it asks of its declaration, for one line that they share.
fn put_if_procedure(source: &Source, place: usize, first: u16, out: &mut [u8], at: usize) -> usize
    requires { TypesKnown source.now.table.now source.now.known.now × Within source.now.table.now source.now.sizes.now place
        × (half_at source.now.table.now (8 * place) ≡ 12 → Brief source.now.table.now (part_at source.now.table.now source.now.sizes.now place))
        × (at + length (body_at source.now.table.now source.now.sizes.now place first) ≤ length out.old) }
    ensures { Wrote out.old at (body_at source.now.table.now source.now.sizes.now place first) out.new result }
{
    if table_entries::kind_at(source.table, place) == KIND_PROCEDURE {
        let end = place + table_scopes::size_at(source.sizes, place);
        return put_procedure(source, place, end, first, out, at);
    }
    at
}

// Where the next body begins: where this one ends.
fn next_first(table: &[u8], place: usize, ends: &[u16], first: u16) -> u16
    requires { (place < length table.now / 8) × (place < length ends.now) }
    ensures { result ≡ first_after (half_at table.now (8 * place)) (get_or ends.now place 0) first }
{
    if table_entries::kind_at(table, place) == KIND_PROCEDURE {
        ends[place]
    } else {
        first
    }
}

// Each begins where the body before it ends; the root's end is that of entry 0.
fn put_procedures(source: &Source, ends: &[u16], out: &mut [u8], from: usize) -> usize
    requires { Headed source.now.table.now source.now.sizes.now source.now.count × TypesKnown source.now.table.now source.now.known.now
        × Ended source.now.table.now ends.now × (from + length (procs_front source.now.table.now) ≤ length out.old) }
    ensures { Wrote out.old from (procs_front source.now.table.now) out.new result }
{
    let mut place = 1;
    let mut first = ends[0];
    let mut at = from;
    for i in 0..source.count {
        at = put_if_procedure(source, place, first, out, at);
        first = next_first(source.table, place, ends, first);
        place += table_scopes::size_at(source.sizes, place);
    }
    at
}

// ── the whole ──
// HD, with so many of each.
fn put_header(out: &mut [u8], classes: u8, bodies: u8, instructions: u16, shapes: u16)
    requires { 8 ≤ length out.old }
    ensures { out.new ≡ sets out.old 0 (72 ∷ 68 ∷ classes ∷ bodies ∷ (half instructions ++ half shapes)) }
{
    out[0] = b'H';
    out[1] = b'D';
    out[CLASS_COUNT_AT] = classes;
    out[BODY_COUNT_AT] = bodies;
    words::put_half(out, CODE_COUNT_AT, instructions);
    words::put_half(out, SHAPE_COUNT_AT, shapes);
}

// The whole front; where the code begins.
pub fn put(
    table: &[u8],
    count: usize,
    after: usize,
    sizes: &[u16],
    known: &[u32],
    ends: &[u16],
    classes: usize,
    bodies: usize,
    instructions: usize,
    shapes: usize,
    out: &mut [u8],
) -> usize
    requires { (t : Tree) × Fronted t table.now count after sizes.now known.now ends.now classes bodies instructions shapes (length out.old) }
    ensures { (t : Tree) → Fronted t table.now count after sizes.now known.now
        ends.now classes bodies instructions shapes (length out.old) → Wrote out.old 0 (front (compiled t)) out.new result }
{
    let source = Source {
        table,
        sizes,
        known,
        count,
    };
    put_header(
        out,
        classes as u8,
        bodies as u8,
        instructions as u16,
        shapes as u16,
    );
    let root = put_classes(&source, out, HEAD_BYTES);
    let procedures = put_root(&source, after, out, root);
    put_procedures(&source, ends, out, procedures)
}
