// What entries add themselves to the code of their operands: their instructions and shapes, and the types of their results.
#![tactic(auto)]

ghost use Rattle.std.specs.Prelude.{◌≡◌, ◌+◌, ◌*◌, ◌≤◌, ◌<◌, length, get_or, set, ◌++◌};
ghost use Rattle.std.proofs.lemmas.List.Edits.{sets};
ghost use Rattle.words.specs.Numbers.{half_at};
ghost use Rattle.table_scopes.specs.Environment.{env_of, Grown};
ghost use Rattle.compile_symbols.specs.Meaning.{meaning_of};
ghost use Rattle.compile_output.specs.EmitRecord.{moved, Fits};
ghost use Rattle.compile_emit.specs.EmitEntry.{names, known_for, owner_by, emit_leaf, leaf_type, operands_by, emit_last, last_type, emit_initial};
ghost use Rattle.compile_emit.specs.EmitEntry.{cursor_declared, emit_declared, cursor_head, emit_head, finishes, holds_by, holds_head, way_by, number_of_way};
ghost use Rattle.compile_emit.specs.EmitEntry.{waiting_by, cursor_between, emit_between, cursor_behind, emit_behind, pair_type, cursor_before};
ghost use Rattle.compile_emit.specs.EmitEntry.{emit_before, cursor_behind_arm, emit_behind_arm, cursor_goto, emit_goto};
ghost use Rattle.compile_scopes.specs.Marks.{marks};
ghost use Rattle.compile_emit.specs.Opens.{OpenAsks, OpenGives};
ghost use Rattle.compile_nodes.specs.Knows.{passed_to};

use compile_output::Cursor;
use formats::compiled::*;
use formats::entries::*;

// The address after the code of an entry; of a label, its own.
pub fn finish(ends: &mut [u16], at: usize, p: Cursor) -> Cursor
    requires { (at < length ends.old) × (p.address < 65536) }
    ensures { (result ≡ p) × (ends.new ≡ set ends.old at p.address) }
{
    ends[at] = p.address as u16;
    p
}

// Where the code of the entry at a place ends, as the walk before this one has found.
pub fn end_of(aims: &[u16], place: usize) -> u32
    ensures { (result ≡ get_or aims.now place 0) × (result < 65536) }
{
    u32::from(aims.get(place).copied().unwrap_or(0))
}

// ── entries with no operands, or expressions only ──
#[tactic(auto, unfolding(crate::specs::EmitEntry::names))]
fn names(kind: u16) -> bool
    ensures { result ≡ names kind }
{
    matches!(
        kind,
        KIND_CALL | KIND_NULL | KIND_VARIABLE | KIND_FUNCTION | KIND_FIELD | KIND_RECORD
    )
}

// What is known of the definition that an entry names.
pub fn known_of(kind: u16, a: u16, env: &[u32], top: usize, known: &[u32]) -> u32
    requires { 4 * top ≤ length env.now }
    ensures { result ≡ known_for kind a (env_of env.now top) known.now }
{
    if names(kind) {
        compile_symbols::meaning(env, top, a, known)
    } else {
        0
    }
}

// Whose cell: in the root's code, the root's variables are its own.
pub fn owner(p: Cursor, known: u32) -> u8
    ensures { result ≡ owner_by p.inside known }
{
    if p.inside {
        compile_symbols::first_in(known)
    } else {
        0
    }
}

// The instruction of an expression with nothing below it.
#[tactic(auto, unfolding(crate::specs::EmitEntry::emit_leaf))]
pub fn leaf(kind: u16, b: u32, known: u32, out: &mut [u8], p: Cursor) -> Cursor
    requires { Fits (moved p) (length out.old) }
    ensures { (result ≡ moved p) × (out.new ≡ emit_leaf kind b known p out.old) }
{
    match kind {
        KIND_INTEGER => compile_output::emit(out, p, OP_INTEGER, 0, b),
        KIND_LOGICAL => compile_output::emit(out, p, OP_LOGICAL, 0, b),
        KIND_BITS => compile_output::emit(out, p, OP_BITS, 0, b),
        KIND_NULL => compile_output::emit(out, p, OP_NULL, compile_symbols::first_in(known), 0),
        _ => compile_output::emit(
            out,
            p,
            OP_LOAD,
            owner(p, known),
            compile_symbols::second_in(known),
        ),
    }
}

#[tactic(auto, unfolding(crate::specs::EmitEntry::leaf_type))]
pub fn leaf_type(kind: u16, known: u32) -> u8
    ensures { result ≡ leaf_type kind known }
{
    match kind {
        KIND_INTEGER => TYPE_INTEGER,
        KIND_LOGICAL => TYPE_LOGICAL,
        KIND_BITS => TYPE_BITS,
        _ => compile_symbols::type_in(known),
    }
}

// The expressions below an entry that has no other operands.
#[tactic(auto, unfolding(crate::specs::EmitEntry::operands_by))]
pub fn operands_of(kind: u16, b: u32) -> usize
    ensures { result ≡ operands_by kind b }
{
    match kind {
        KIND_CALL | KIND_FUNCTION | KIND_RECORD => b as usize,
        KIND_SET => 2,
        KIND_ASSERT | KIND_FIELD | KIND_UNARY | KIND_FADER => 1,
        _ => 0,
    }
}

// The instruction of an entry with expressions only below it.
#[tactic(auto, unfolding(crate::specs::EmitEntry::emit_last))]
pub fn last(kind: u16, a: u16, known: u32, out: &mut [u8], p: Cursor) -> Cursor
    requires { Fits (moved p) (length out.old) }
    ensures { (result ≡ moved p) × (out.new ≡ emit_last kind a known p out.old) }
{
    let first = compile_symbols::first_in(known);
    let second = compile_symbols::second_in(known);
    match kind {
        KIND_ASSERT => compile_output::emit(out, p, OP_ASSERT, 0, 0),
        KIND_CALL | KIND_FUNCTION => compile_output::emit(out, p, OP_CALL, 0, second),
        KIND_SET => compile_output::emit(out, p, OP_SET, 0, 0),
        KIND_FIELD => compile_output::emit(out, p, OP_GET_FIELD, first, second),
        KIND_RECORD => compile_output::emit(out, p, OP_MAKE, first, 0),
        KIND_UNARY => compile_output::emit(out, p, OP_OPERATOR, (a % 256) as u8, 0),
        _ => compile_output::emit(out, p, OP_FADER, 0, 0),
    }
}

// The type of its result, by that of its first operand.
#[tactic(auto, unfolding(crate::specs::EmitEntry::last_type))]
pub fn last_type(kind: u16, a: u16, known: u32, first: u8) -> u8
    ensures { result ≡ last_type kind a known first }
{
    match kind {
        KIND_FUNCTION | KIND_FIELD | KIND_RECORD => compile_symbols::type_in(known),
        KIND_UNARY => if a == 22 { first } else { TYPE_INTEGER },
        _ => TYPE_INTEGER,
    }
}

// ── heads ──
// The initial value of a variable, by the byte of its type.
fn initial(ty: u8, out: &mut [u8], p: Cursor) -> Cursor
    requires { Fits (moved p) (length out.old) }
    ensures { (result ≡ moved p) × (out.new ≡ emit_initial ty p out.old) }
{
    if ty < TYPE_CLASS {
        compile_output::emit(out, p, ty, 0, 0)
    } else {
        compile_output::emit(out, p, OP_NULL, ty - TYPE_CLASS, 0)
    }
}

// One declaration of a head; classes and procedures have no code there.
pub fn declare_one(part: &[u8], known: u32, out: &mut [u8], p: Cursor) -> Cursor
    requires { (8 ≤ length part.now) × Fits (cursor_declared (half_at part.now 0) p) (length out.old) }
    ensures { (result ≡ cursor_declared (half_at part.now 0) p)
        × (out.new ≡ emit_declared (half_at part.now 0) (half_at part.now 2) known p out.old) }
{
    let kind = table_entries::kind_at(part, 0);
    match kind {
        KIND_DECLARE => {
            let q = initial(compile_symbols::type_in(known), out, p);
            compile_output::emit(out, q, OP_STORE, 0, compile_symbols::second_in(known))
        }
        KIND_HOLD => compile_output::emit(out, p, OP_HOLD, 0, table_entries::a_at(part, 0) as u32),
        _ => p,
    }
}

// The declarations of a head.
pub fn declare(
    part: &[u8],
    at: usize,
    count: usize,
    known: &[u32],
    ends: &mut [u16],
    out: &mut [u8],
    cursor: Cursor,
) -> Cursor
    requires { (8 * count ≤ length part.now) × (at + count ≤ length ends.old) × Fits (cursor_head part.now count cursor) (length out.old) }
    ensures { (result ≡ cursor_head part.now count cursor)
        × (out.new ≡ emit_head part.now known.now at count cursor out.old)
        × (ends.new ≡ sets ends.old at (finishes part.now count cursor)) }
{
    let mut p = cursor;
    for i in 0..count {
        let from = ENTRY_BYTES * i;
        let k = compile_symbols::known_at(known, at + i);
        p = finish(ends, at + i, declare_one(&part[from..], k, out, p));
    }
    p
}

// How many holds a declaration of this kind takes.
pub fn holds_by(kind: u16) -> usize
    ensures { result ≡ holds_by kind }
{
    compile_symbols::one_if(kind, KIND_HOLD)
}

// How many holds a head takes.
pub fn holds_in(part: &[u8], count: usize) -> usize
    requires { 8 * count ≤ length part.now }
    ensures { result ≡ holds_head part.now count }
{
    let mut n = 0;
    for i in 0..count {
        n += holds_by(table_entries::kind_at(part, i));
    }
    n
}

// The holds of a block, below its names: a goto to a label beneath them passes them.
pub fn mark_holds(env: &mut [u32], top: usize, count: usize)
    requires { 4 * (top + count) ≤ length env.old }
    ensures { Grown top env.old env.new (top + count) (marks count ++ env_of env.old top) count }
{
    for i in 0..count {
        table_scopes::push(env, top + i, 65539, 0, 0, 0);
    }
}

// Where the items of a block begin.
#[derive(Drop)]
pub struct Opened {
    // its holds
    pub holds: usize,
    // the top of the names in sight
    pub top: usize,
    pub cursor: Cursor,
}

// A block or block expression, by its mark, up to its items. Its declarations begin the part, and the first of them stands at `at`.
pub fn open_block(
    table: &[u8],
    part: &[u8],
    at: usize,
    heads: usize,
    count: usize,
    mark: u32,
    sizes: &[u16],
    env: &mut [u32],
    top: usize,
    known: &[u32],
    ends: &mut [u16],
    out: &mut [u8],
    cursor: Cursor,
) -> Opened
    requires { OpenAsks table.now part.now at heads count sizes.now env.old top ends.old out.old cursor }
    ensures { OpenGives mark table.now part.now at heads count env.old top known.now
        ends.old out.old cursor result env.new ends.new out.new }
{
    let holds = holds_in(part, heads);
    mark_holds(env, top, holds);
    let up = table_scopes::enter(table, at, heads, count, mark, sizes, env, top + holds);
    let p = declare(part, at, heads, known, ends, out, cursor);
    Opened {
        holds,
        top: up,
        cursor: p,
    }
}

// ── gotos ──
#[derive(Drop)]
pub struct Landing {
    // the holds that lie between here and the definition of the name
    pub passed: usize,
    // the address of the label
    pub address: u32,
}

// Where a goto to a name in sight lands, found in one search.
pub fn land(env: &[u32], top: usize, name: u32, aims: &[u16]) -> Landing
    requires { 4 * top ≤ length env.now }
    ensures { (result.passed ≡ passed_to name (env_of env.now top)) × (result.address ≡ meaning_of name (env_of env.now top) aims.now) }
{
    let mut n = 0;
    for i in (0..top).rev() {
        let m = env[4 * i];
        if m == name {
            return Landing {
                passed: n,
                address: end_of(aims, env[4 * i + 3] as usize),
            };
        }
        if m == 65539 {
            n += 1;
        }
    }
    Landing {
        passed: n,
        address: 0,
    }
}

// The holds between here and its label's block are let go, and what follows it is found as it was before.
pub fn goto(
    name: u16,
    env: &[u32],
    top: usize,
    aims: &[u16],
    holds: usize,
    stack: &[u8],
    depth: usize,
    out: &mut [u8],
    cursor: Cursor,
) -> Cursor
    requires { (4 * top ≤ length env.now) × (depth ≤ length stack.now) × (depth < 256) × (holds < 256)
        × Fits (cursor_goto (passed_to name (env_of env.now top)) depth cursor) (length out.old) }
    ensures { (result ≡ cursor_goto (passed_to name (env_of env.now top)) depth cursor)
        × (out.new ≡ emit_goto (passed_to name (env_of env.now top))
        (meaning_of name (env_of env.now top) aims.now) holds stack.now depth cursor out.old) }
{
    let l = land(env, top, name as u32, aims);
    let p = compile_output::releases(out, cursor, l.passed);
    let q = compile_output::emit(out, p, OP_GO, 0, l.address);
    compile_output::shape(out, q, holds, stack, depth)
}

// ── operators ──
// How the second operand follows the first.
#[derive(Clone, Copy, PartialEq, Eq)]
pub enum Way {
    Plain,
    // `and`, `or` of bits: what stands between them is marked
    Marked,
    // `and`, `or` of truth values: the second one is computed only if the first is true, or only if it is false
    IfTrue,
    IfFalse,
}

#[tactic(auto, unfolding(crate::specs::EmitEntry::way_by))]
pub fn way_of(operator: u16, first: u8) -> Way
    ensures { number_of_way result ≡ way_by operator first }
{
    match operator {
        12 => if first == TYPE_LOGICAL {
            Way::IfTrue
        } else {
            Way::Marked
        },
        13 => if first == TYPE_LOGICAL {
            Way::IfFalse
        } else {
            Way::Marked
        },
        _ => Way::Plain,
    }
}

// How many values of the first operand wait while the second is computed.
pub fn waiting(way: Way) -> usize
    ensures { result ≡ waiting_by (number_of_way way) }
{
    match way {
        Way::Plain | Way::Marked => 1,
        Way::IfTrue | Way::IfFalse => 0,
    }
}

// Between the operands; `end` is where the second one's code ends.
pub fn between(
    way: Way,
    end: u32,
    holds: usize,
    stack: &[u8],
    depth: usize,
    out: &mut [u8],
    p: Cursor,
) -> Cursor
    requires { (end < 65536) × (depth < length stack.now) × (depth < 255) × (holds < 256) × Fits (cursor_between (number_of_way way) depth p) (length out.old) }
    ensures { (result ≡ cursor_between (number_of_way way) depth p) × (out.new ≡ emit_between (number_of_way way) end holds stack.now depth p out.old) }
{
    match way {
        Way::Plain => p,
        Way::Marked => compile_output::shape(out, p, holds, stack, depth + 1),
        Way::IfTrue => compile_output::emit(out, p, OP_UNLESS, 0, end + 1),
        Way::IfFalse => {
            let landing = p.address as u32 + 3;
            let q = compile_output::emit(out, p, OP_UNLESS, 0, landing);
            let r = compile_output::emit(out, q, OP_LOGICAL, 0, 1);
            let s = compile_output::emit(out, r, OP_GO, 0, end);
            compile_output::shape(out, s, holds, stack, depth)
        }
    }
}

// Behind them, where the type of the result stands on the stack.
pub fn behind(
    way: Way,
    operator: u16,
    end: u32,
    holds: usize,
    stack: &[u8],
    depth: usize,
    out: &mut [u8],
    p: Cursor,
) -> Cursor
    requires { (end < 65536) × (depth < length stack.now) × (depth < 255) × (holds < 256) × Fits (cursor_behind (number_of_way way) depth p) (length out.old) }
    ensures { (result ≡ cursor_behind (number_of_way way) depth p) × (out.new ≡ emit_behind (number_of_way way) operator end holds stack.now depth p out.old) }
{
    match way {
        Way::IfTrue => {
            let q = compile_output::emit(out, p, OP_GO, 0, end + 2);
            let r = compile_output::shape(out, q, holds, stack, depth);
            let s = compile_output::emit(out, r, OP_LOGICAL, 0, 0);
            compile_output::shape(out, s, holds, stack, depth + 1)
        }
        Way::IfFalse => compile_output::shape(out, p, holds, stack, depth + 1),
        Way::Plain | Way::Marked => compile_output::emit(
            out,
            p,
            OP_OPERATOR,
            (operator % 256) as u8,
            0,
        ),
    }
}

// The type of the result, by that of the first operand.
#[tactic(auto, unfolding(crate::specs::EmitEntry::pair_type))]
pub fn pair_type(operator: u16, first: u8) -> u8
    ensures { result ≡ pair_type operator first }
{
    if operator < 6 {
        return TYPE_INTEGER;
    }
    if operator < 12 { TYPE_LOGICAL } else { first }
}

// ── cases ──
// Before the statement after i others, whose code ends at `end`: its number is looked for.
pub fn before_arm(cell: u32, i: usize, end: u32, out: &mut [u8], p: Cursor) -> Cursor
    requires { (i < 65536) × (end < 65536) × Fits (cursor_before p) (length out.old) }
    ensures { (result ≡ cursor_before p) × (out.new ≡ emit_before cell i end p out.old) }
{
    let q = compile_output::emit(out, p, OP_LOAD, 0, cell);
    let r = compile_output::emit(out, q, OP_INTEGER, 0, i as u32 + 1);
    let s = compile_output::emit(out, r, OP_OPERATOR, 10, 0);
    compile_output::emit(out, s, OP_UNLESS, 0, end + 1)
}

// Behind it; `end` is where the case ends.
pub fn after_arm(
    end: u32,
    holds: usize,
    stack: &[u8],
    depth: usize,
    out: &mut [u8],
    p: Cursor,
) -> Cursor
    requires { (depth ≤ length stack.now) × (depth < 256) × (holds < 256) × Fits (cursor_behind_arm depth p) (length out.old) }
    ensures { (result ≡ cursor_behind_arm depth p) × (out.new ≡ emit_behind_arm end holds stack.now depth p out.old) }
{
    let q = compile_output::emit(out, p, OP_GO, 0, end);
    compile_output::shape(out, q, holds, stack, depth)
}
