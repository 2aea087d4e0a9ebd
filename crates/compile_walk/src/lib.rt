// The walkers: statements and expressions call each other, the remaining nesting falling. Each gets the part of the table that begins
// where it stands and passes on parts that start inside it. An expression leaves the type of its value at `depth` of the stack. The
// walkers go over a table twice: dry, they only find where the code of each entry ends; then `aims` has what they found.
#![tactic(auto)]

ghost use Rattle.std.specs.Prelude.{◌+◌, ◌*◌};
ghost use Rattle.compile_walk.specs.Given.{Same, AsksAt, AnswersAt, AsksEsAt, AnswersEsAt, AsksItemsAt, AnswersItemsAt, AsksArmsAt, AnswersArmsAt};
ghost use Rattle.compile_steps.specs.Views.{IsExpr, IsStmt, IsKind, IsSimple};

use compile_output::Cursor;
use formats::compiled::*;
use formats::entries::*;

// What the walkers read: the table, the sizes of its entries, what its definitions stand for, and where the code of each entry ends.
#[derive(Clone, Copy)]
pub struct Source<'a> {
    pub table: &'a [u8],
    pub sizes: &'a [u16],
    pub known: &'a [u32],
    pub aims: &'a [u16],
}

// What they write: the names in sight, where the code of each entry ends, the macro's bytes.
// Kept (point 5): the types of the values that wait (`stack`) are lent beside it; most calls read them while they write the bytes, and of one `&mut` struct no
// field may be read while another is lent (tried: the borrow checker does not cover it).
#[derive(Drop)]
pub struct Lent<'a> {
    pub env: &'a mut [u32],
    pub ends: &'a mut [u16],
    pub out: &'a mut [u8],
}

// Expressions one after the other; the values of those before wait.
#[cycle(arms_assign_block_body_choose_conditional_expression_items_operands_pair_repeat_select_simple_statement_turns_when)]
fn operands(
    source: &Source,
    lent: &mut Lent,
    stack: &mut [u8],
    part: &[u8],
    count: usize,
    nesting: usize,
    at: usize,
    top: usize,
    holds: usize,
    depth: usize,
    cursor: Cursor,
) -> Cursor
    requires { AsksEsAt source.now part.now count nesting at lent.old stack.old top holds depth cursor }
    ensures same { Same lent.old lent.new }
    ensures answers { AnswersEsAt source.now part.now count nesting at lent.old stack.old lent.new stack.new top holds depth cursor result }
{
    let mut rest = part;
    let mut place = at;
    let mut p = cursor;
    for i in 0..count {
        p = expression(
            source,
            lent,
            stack,
            rest,
            nesting,
            place,
            top,
            holds,
            depth + i,
            p,
        );
        let n = table_scopes::size_at(source.sizes, place);
        let from = ENTRY_BYTES * n;
        rest = &rest[from..];
        place += n;
    }
    p
}

// An entry with expressions only below it: they, and its instruction. (Its part is handed over as `&part[0..]`, built anew: the compiler takes
// 6 to 8 % less time so; docs/SPEED.md.)
#[cycle(arms_assign_block_body_choose_conditional_expression_items_operands_pair_repeat_select_simple_statement_turns_when)]
fn simple(
    source: &Source,
    lent: &mut Lent,
    stack: &mut [u8],
    part: &[u8],
    nesting: usize,
    at: usize,
    top: usize,
    holds: usize,
    depth: usize,
    cursor: Cursor,
) -> Cursor
    requires { AsksAt IsSimple source.now part.now nesting at lent.old stack.old top holds depth cursor }
    ensures same { Same lent.old lent.new }
    ensures answers { AnswersAt IsSimple source.now part.now nesting at lent.old stack.old lent.new stack.new top holds depth cursor result }
{
    let kind = table_entries::kind_at(part, 0);
    let a = table_entries::a_at(part, 0);
    let count = compile_emit::operands_of(kind, table_entries::b_at(part, 0));
    let p = operands(
        source,
        lent,
        stack,
        &part[ENTRY_BYTES..],
        count,
        nesting - 1,
        at + 1,
        top,
        holds,
        depth,
        cursor,
    );
    let env = &mut *lent.env;
    let k = compile_emit::known_of(kind, a, env, top, source.known);
    stack[depth] = compile_emit::last_type(kind, a, k, stack[depth]);
    let done = compile_emit::last(kind, a, k, lent.out, p);
    compile_emit::finish(lent.ends, at, done)
}

// A binary operator.
#[cycle(arms_assign_block_body_choose_conditional_expression_items_operands_pair_repeat_select_simple_statement_turns_when)]
fn pair(
    source: &Source,
    lent: &mut Lent,
    stack: &mut [u8],
    part: &[u8],
    nesting: usize,
    at: usize,
    top: usize,
    holds: usize,
    depth: usize,
    cursor: Cursor,
) -> Cursor
    requires { AsksAt (IsKind 49) source.now part.now nesting at lent.old stack.old top holds depth cursor }
    ensures same { Same lent.old lent.new }
    ensures answers { AnswersAt (IsKind 49) source.now part.now nesting at lent.old stack.old lent.new stack.new top holds depth cursor result }
{
    let operator = table_entries::a_at(part, 0);
    let p = expression(
        source,
        lent,
        stack,
        &part[ENTRY_BYTES..],
        nesting - 1,
        at + 1,
        top,
        holds,
        depth,
        cursor,
    );
    let second = at + 1 + table_scopes::size_at(source.sizes, at + 1);
    let end = compile_emit::end_of(source.aims, second);
    let first = stack[depth];
    let way = compile_emit::way_of(operator, first);
    let q = compile_emit::between(way, end, holds, stack, depth, lent.out, p);
    let from = ENTRY_BYTES * (second - at);
    let r = expression(
        source,
        lent,
        stack,
        &part[from..],
        nesting - 1,
        second,
        top,
        holds,
        depth + compile_emit::waiting(way),
        q,
    );
    stack[depth] = compile_emit::pair_type(operator, first);
    let done = compile_emit::behind(way, operator, end, holds, stack, depth, lent.out, r);
    compile_emit::finish(lent.ends, at, done)
}

// An if-expression.
#[cycle(arms_assign_block_body_choose_conditional_expression_items_operands_pair_repeat_select_simple_statement_turns_when)]
fn conditional(
    source: &Source,
    lent: &mut Lent,
    stack: &mut [u8],
    part: &[u8],
    nesting: usize,
    at: usize,
    top: usize,
    holds: usize,
    depth: usize,
    cursor: Cursor,
) -> Cursor
    requires { AsksAt (IsKind 50) source.now part.now nesting at lent.old stack.old top holds depth cursor }
    ensures same { Same lent.old lent.new }
    ensures answers { AnswersAt (IsKind 50) source.now part.now nesting at lent.old stack.old lent.new stack.new top holds depth cursor result }
{
    let p = expression(
        source,
        lent,
        stack,
        &part[ENTRY_BYTES..],
        nesting - 1,
        at + 1,
        top,
        holds,
        depth,
        cursor,
    );
    let second = at + 1 + table_scopes::size_at(source.sizes, at + 1);
    let third = second + table_scopes::size_at(source.sizes, second);
    let q = compile_output::emit(
        lent.out,
        p,
        OP_UNLESS,
        0,
        compile_emit::end_of(source.aims, second) + 1,
    );
    let from = ENTRY_BYTES * (second - at);
    let r = expression(
        source,
        lent,
        stack,
        &part[from..],
        nesting - 1,
        second,
        top,
        holds,
        depth,
        q,
    );
    let ty = stack[depth];
    let s = compile_output::emit(
        lent.out,
        r,
        OP_GO,
        0,
        compile_emit::end_of(source.aims, third),
    );
    let t = compile_output::shape(lent.out, s, holds, stack, depth);
    let last = ENTRY_BYTES * (third - at);
    let u = expression(
        source,
        lent,
        stack,
        &part[last..],
        nesting - 1,
        third,
        top,
        holds,
        depth,
        t,
    );
    stack[depth] = ty;
    let done = compile_output::shape(lent.out, u, holds, stack, depth + 1);
    compile_emit::finish(lent.ends, at, done)
}

// An if without else.
#[cycle(arms_assign_block_body_choose_conditional_expression_items_operands_pair_repeat_select_simple_statement_turns_when)]
fn when(
    source: &Source,
    lent: &mut Lent,
    stack: &mut [u8],
    part: &[u8],
    nesting: usize,
    at: usize,
    top: usize,
    holds: usize,
    depth: usize,
    cursor: Cursor,
) -> Cursor
    requires { AsksAt (IsKind 22) source.now part.now nesting at lent.old stack.old top holds depth cursor }
    ensures same { Same lent.old lent.new }
    ensures answers { AnswersAt (IsKind 22) source.now part.now nesting at lent.old stack.old lent.new stack.new top holds depth cursor result }
{
    let p = expression(
        source,
        lent,
        stack,
        &part[ENTRY_BYTES..],
        nesting - 1,
        at + 1,
        top,
        holds,
        depth,
        cursor,
    );
    let second = at + 1 + table_scopes::size_at(source.sizes, at + 1);
    let q = compile_output::emit(
        lent.out,
        p,
        OP_UNLESS,
        0,
        compile_emit::end_of(source.aims, second),
    );
    let from = ENTRY_BYTES * (second - at);
    let r = statement(
        source,
        lent,
        stack,
        &part[from..],
        nesting - 1,
        second,
        top,
        holds,
        depth,
        q,
    );
    let done = compile_output::shape(lent.out, r, holds, stack, depth);
    compile_emit::finish(lent.ends, at, done)
}

// An if with else.
#[cycle(arms_assign_block_body_choose_conditional_expression_items_operands_pair_repeat_select_simple_statement_turns_when)]
fn choose(
    source: &Source,
    lent: &mut Lent,
    stack: &mut [u8],
    part: &[u8],
    nesting: usize,
    at: usize,
    top: usize,
    holds: usize,
    depth: usize,
    cursor: Cursor,
) -> Cursor
    requires { AsksAt (IsKind 23) source.now part.now nesting at lent.old stack.old top holds depth cursor }
    ensures same { Same lent.old lent.new }
    ensures answers { AnswersAt (IsKind 23) source.now part.now nesting at lent.old stack.old lent.new stack.new top holds depth cursor result }
{
    let p = expression(
        source,
        lent,
        stack,
        &part[ENTRY_BYTES..],
        nesting - 1,
        at + 1,
        top,
        holds,
        depth,
        cursor,
    );
    let second = at + 1 + table_scopes::size_at(source.sizes, at + 1);
    let third = second + table_scopes::size_at(source.sizes, second);
    let q = compile_output::emit(
        lent.out,
        p,
        OP_UNLESS,
        0,
        compile_emit::end_of(source.aims, second) + 1,
    );
    let from = ENTRY_BYTES * (second - at);
    let r = statement(
        source,
        lent,
        stack,
        &part[from..],
        nesting - 1,
        second,
        top,
        holds,
        depth,
        q,
    );
    let s = compile_output::emit(
        lent.out,
        r,
        OP_GO,
        0,
        compile_emit::end_of(source.aims, third),
    );
    let t = compile_output::shape(lent.out, s, holds, stack, depth);
    let last = ENTRY_BYTES * (third - at);
    let u = statement(
        source,
        lent,
        stack,
        &part[last..],
        nesting - 1,
        third,
        top,
        holds,
        depth,
        t,
    );
    let done = compile_output::shape(lent.out, u, holds, stack, depth);
    compile_emit::finish(lent.ends, at, done)
}

// A while.
#[cycle(arms_assign_block_body_choose_conditional_expression_items_operands_pair_repeat_select_simple_statement_turns_when)]
fn repeat(
    source: &Source,
    lent: &mut Lent,
    stack: &mut [u8],
    part: &[u8],
    nesting: usize,
    at: usize,
    top: usize,
    holds: usize,
    depth: usize,
    cursor: Cursor,
) -> Cursor
    requires { AsksAt (IsKind 24) source.now part.now nesting at lent.old stack.old top holds depth cursor }
    ensures same { Same lent.old lent.new }
    ensures answers { AnswersAt (IsKind 24) source.now part.now nesting at lent.old stack.old lent.new stack.new top holds depth cursor result }
{
    let start = cursor.address as u32;
    let p = compile_output::shape(lent.out, cursor, holds, stack, depth);
    let q = expression(
        source,
        lent,
        stack,
        &part[ENTRY_BYTES..],
        nesting - 1,
        at + 1,
        top,
        holds,
        depth,
        p,
    );
    let second = at + 1 + table_scopes::size_at(source.sizes, at + 1);
    let r = compile_output::emit(
        lent.out,
        q,
        OP_UNLESS,
        0,
        compile_emit::end_of(source.aims, second) + 1,
    );
    let from = ENTRY_BYTES * (second - at);
    let s = statement(
        source,
        lent,
        stack,
        &part[from..],
        nesting - 1,
        second,
        top,
        holds,
        depth,
        r,
    );
    let t = compile_output::emit(lent.out, s, OP_GO, 0, start);
    let done = compile_output::shape(lent.out, t, holds, stack, depth);
    compile_emit::finish(lent.ends, at, done)
}

// A for: its three cells hold its value, its step and its bound.
#[cycle(arms_assign_block_body_choose_conditional_expression_items_operands_pair_repeat_select_simple_statement_turns_when)]
fn turns(
    source: &Source,
    lent: &mut Lent,
    stack: &mut [u8],
    part: &[u8],
    nesting: usize,
    at: usize,
    top: usize,
    holds: usize,
    depth: usize,
    cursor: Cursor,
) -> Cursor
    requires { AsksAt (IsKind 31) source.now part.now nesting at lent.old stack.old top holds depth cursor }
    ensures same { Same lent.old lent.new }
    ensures answers { AnswersAt (IsKind 31) source.now part.now nesting at lent.old stack.old lent.new stack.new top holds depth cursor result }
{
    let control = table_entries::a_at(part, 0) as u32;
    let cell = compile_symbols::second_in(compile_symbols::known_at(source.known, at));
    let exit = compile_emit::end_of(source.aims, at);
    let p = operands(
        source,
        lent,
        stack,
        &part[ENTRY_BYTES..],
        3,
        nesting - 1,
        at + 1,
        top,
        holds,
        depth,
        cursor,
    );
    let n = table_scopes::spanned(source.table, source.sizes, at + 1, 3);
    let q = compile_output::shape(lent.out, p, holds, stack, depth + 3);
    let r = compile_output::enter_turns(cell, exit, holds, stack, depth, lent.out, q);
    let up = table_scopes::enter_loop(control, at, lent.env, top);
    let from = ENTRY_BYTES * (1 + n);
    let s = statement(
        source,
        lent,
        stack,
        &part[from..],
        nesting - 1,
        at + 1 + n,
        up,
        holds,
        depth,
        r,
    );
    let began = r.address as u32;
    let t = compile_output::leave_turn(cell, began, exit, holds, stack, depth, lent.out, s);
    compile_emit::finish(lent.ends, at, t)
}

// The statements of the case at `owner`: its index is in a cell.
#[cycle(arms_assign_block_body_choose_conditional_expression_items_operands_pair_repeat_select_simple_statement_turns_when)]
fn arms(
    source: &Source,
    lent: &mut Lent,
    stack: &mut [u8],
    part: &[u8],
    owner: usize,
    count: usize,
    nesting: usize,
    at: usize,
    top: usize,
    holds: usize,
    depth: usize,
    cursor: Cursor,
) -> Cursor
    requires { AsksArmsAt source.now part.now owner count nesting at lent.old stack.old top holds depth cursor }
    ensures same { Same lent.old lent.new }
    ensures answers { AnswersArmsAt source.now part.now owner count nesting at lent.old stack.old lent.new stack.new top holds depth cursor result }
{
    let cell = compile_symbols::second_in(compile_symbols::known_at(source.known, owner));
    let end = compile_emit::end_of(source.aims, owner);
    let mut rest = part;
    let mut place = at;
    let mut p = cursor;
    for i in 0..count {
        let q = compile_emit::before_arm(
            cell,
            i,
            compile_emit::end_of(source.aims, place),
            lent.out,
            p,
        );
        let r = statement(
            source, lent, stack, rest, nesting, place, top, holds, depth, q,
        );
        p = compile_emit::after_arm(end, holds, stack, depth, lent.out, r);
        let n = table_scopes::size_at(source.sizes, place);
        let from = ENTRY_BYTES * n;
        rest = &rest[from..];
        place += n;
    }
    p
}

// A case.
#[cycle(arms_assign_block_body_choose_conditional_expression_items_operands_pair_repeat_select_simple_statement_turns_when)]
fn select(
    source: &Source,
    lent: &mut Lent,
    stack: &mut [u8],
    part: &[u8],
    nesting: usize,
    at: usize,
    top: usize,
    holds: usize,
    depth: usize,
    cursor: Cursor,
) -> Cursor
    requires { AsksAt (IsKind 30) source.now part.now nesting at lent.old stack.old top holds depth cursor }
    ensures same { Same lent.old lent.new }
    ensures answers { AnswersAt (IsKind 30) source.now part.now nesting at lent.old stack.old lent.new stack.new top holds depth cursor result }
{
    let count = table_entries::a_at(part, 0) as usize;
    let cell = compile_symbols::second_in(compile_symbols::known_at(source.known, at));
    let p = expression(
        source,
        lent,
        stack,
        &part[ENTRY_BYTES..],
        nesting - 1,
        at + 1,
        top,
        holds,
        depth,
        cursor,
    );
    let q = compile_output::emit(lent.out, p, OP_STORE, 0, cell);
    let second = at + 1 + table_scopes::size_at(source.sizes, at + 1);
    let from = ENTRY_BYTES * (second - at);
    let r = arms(
        source,
        lent,
        stack,
        &part[from..],
        at,
        count,
        nesting - 1,
        second,
        top,
        holds,
        depth,
        q,
    );
    let s = compile_output::emit(lent.out, r, OP_STOP, values::CASE_INDEX, 0);
    let done = compile_output::shape(lent.out, s, holds, stack, depth);
    compile_emit::finish(lent.ends, at, done)
}

// The target of an assignment is the entry right behind it, at place 1; the reference of a field is the entry behind that.
const REFERENCE_AT: usize = 2 * ENTRY_BYTES;

// An assignment: to a variable its value alone is computed, to a field the reference before it.
#[cycle(arms_assign_block_body_choose_conditional_expression_items_operands_pair_repeat_select_simple_statement_turns_when)]
fn assign(
    source: &Source,
    lent: &mut Lent,
    stack: &mut [u8],
    part: &[u8],
    nesting: usize,
    at: usize,
    top: usize,
    holds: usize,
    depth: usize,
    cursor: Cursor,
) -> Cursor
    requires { AsksAt (IsKind 21) source.now part.now nesting at lent.old stack.old top holds depth cursor }
    ensures same { Same lent.old lent.new }
    ensures answers { AnswersAt (IsKind 21) source.now part.now nesting at lent.old stack.old lent.new stack.new top holds depth cursor result }
{
    let env = &mut *lent.env;
    let k = compile_symbols::meaning(env, top, table_entries::a_at(part, 1), source.known);
    let second = at + 1 + table_scopes::size_at(source.sizes, at + 1);
    let from = ENTRY_BYTES * (second - at);
    if table_entries::kind_at(part, 1) == KIND_VARIABLE {
        let p = compile_emit::finish(lent.ends, at + 1, cursor);
        let q = expression(
            source,
            lent,
            stack,
            &part[from..],
            nesting - 1,
            second,
            top,
            holds,
            depth,
            p,
        );
        let r = compile_output::emit(
            lent.out,
            q,
            OP_STORE,
            compile_emit::owner(q, k),
            compile_symbols::second_in(k),
        );
        return compile_emit::finish(lent.ends, at, r);
    }
    let p = expression(
        source,
        lent,
        stack,
        &part[REFERENCE_AT..],
        nesting - 2,
        at + 2,
        top,
        holds,
        depth,
        cursor,
    );
    let q = compile_emit::finish(lent.ends, at + 1, p);
    let r = expression(
        source,
        lent,
        stack,
        &part[from..],
        nesting - 1,
        second,
        top,
        holds,
        depth + 1,
        q,
    );
    let s = compile_output::emit(
        lent.out,
        r,
        OP_PUT_FIELD,
        compile_symbols::first_in(k),
        compile_symbols::second_in(k),
    );
    compile_emit::finish(lent.ends, at, s)
}

// Labels and statements one after the other.
#[cycle(arms_assign_block_body_choose_conditional_expression_items_operands_pair_repeat_select_simple_statement_turns_when)]
pub fn items(
    source: &Source,
    lent: &mut Lent,
    stack: &mut [u8],
    part: &[u8],
    count: usize,
    nesting: usize,
    at: usize,
    top: usize,
    holds: usize,
    depth: usize,
    cursor: Cursor,
) -> Cursor
    requires { AsksItemsAt source.now part.now count nesting at lent.old stack.old top holds depth cursor }
    ensures same { Same lent.old lent.new }
    ensures answers { AnswersItemsAt source.now part.now count nesting at lent.old stack.old lent.new stack.new top holds depth cursor result }
{
    let mut rest = part;
    let mut place = at;
    let mut p = cursor;
    for i in 0..count {
        p = statement(
            source, lent, stack, rest, nesting, place, top, holds, depth, p,
        );
        let n = table_scopes::size_at(source.sizes, place);
        let from = ENTRY_BYTES * n;
        rest = &rest[from..];
        place += n;
    }
    p
}

// A block: its names, its head, its items; then its holds are let go.
#[cycle(arms_assign_block_body_choose_conditional_expression_items_operands_pair_repeat_select_simple_statement_turns_when)]
fn block(
    source: &Source,
    lent: &mut Lent,
    stack: &mut [u8],
    part: &[u8],
    nesting: usize,
    at: usize,
    top: usize,
    holds: usize,
    depth: usize,
    cursor: Cursor,
) -> Cursor
    requires { AsksAt (IsKind 1) source.now part.now nesting at lent.old stack.old top holds depth cursor }
    ensures same { Same lent.old lent.new }
    ensures answers { AnswersAt (IsKind 1) source.now part.now nesting at lent.old stack.old lent.new stack.new top holds depth cursor result }
{
    let heads = table_entries::a_at(part, 0) as usize;
    let count = table_entries::b_at(part, 0) as usize;
    let env = &mut *lent.env;
    let ends = &mut *lent.ends;
    let o = compile_emit::open_block(
        source.table,
        &part[ENTRY_BYTES..],
        at + 1,
        heads,
        count,
        65536,
        source.sizes,
        env,
        top,
        source.known,
        ends,
        lent.out,
        cursor,
    );
    let within = holds + o.holds;
    let from = ENTRY_BYTES * (1 + heads);
    let q = items(
        source,
        lent,
        stack,
        &part[from..],
        count,
        nesting - 1,
        at + 1 + heads,
        o.top,
        within,
        depth,
        o.cursor,
    );
    let done = compile_output::releases(lent.out, q, o.holds);
    compile_emit::finish(lent.ends, at, done)
}

// A block expression: the same behind a wall, and its value before the releases.
#[cycle(arms_assign_block_body_choose_conditional_expression_items_operands_pair_repeat_select_simple_statement_turns_when)]
fn body(
    source: &Source,
    lent: &mut Lent,
    stack: &mut [u8],
    part: &[u8],
    nesting: usize,
    at: usize,
    top: usize,
    holds: usize,
    depth: usize,
    cursor: Cursor,
) -> Cursor
    requires { AsksAt (IsKind 53) source.now part.now nesting at lent.old stack.old top holds depth cursor }
    ensures same { Same lent.old lent.new }
    ensures answers { AnswersAt (IsKind 53) source.now part.now nesting at lent.old stack.old lent.new stack.new top holds depth cursor result }
{
    let heads = table_entries::a_at(part, 0) as usize;
    let count = table_entries::b_at(part, 0) as usize;
    let env = &mut *lent.env;
    let ends = &mut *lent.ends;
    let o = compile_emit::open_block(
        source.table,
        &part[ENTRY_BYTES..],
        at + 1,
        heads,
        count,
        65537,
        source.sizes,
        env,
        top,
        source.known,
        ends,
        lent.out,
        cursor,
    );
    let within = holds + o.holds;
    let from = ENTRY_BYTES * (1 + heads);
    let q = items(
        source,
        lent,
        stack,
        &part[from..],
        count,
        nesting - 1,
        at + 1 + heads,
        o.top,
        within,
        depth,
        o.cursor,
    );
    let n = table_scopes::spanned(source.table, source.sizes, at + 1 + heads, count);
    let after = ENTRY_BYTES * (1 + heads + n);
    let r = expression(
        source,
        lent,
        stack,
        &part[after..],
        nesting - 1,
        at + 1 + heads + n,
        o.top,
        within,
        depth,
        q,
    );
    let done = compile_output::releases(lent.out, r, o.holds);
    compile_emit::finish(lent.ends, at, done)
}

#[cycle(arms_assign_block_body_choose_conditional_expression_items_operands_pair_repeat_select_simple_statement_turns_when)]
pub fn expression(
    source: &Source,
    lent: &mut Lent,
    stack: &mut [u8],
    part: &[u8],
    nesting: usize,
    at: usize,
    top: usize,
    holds: usize,
    depth: usize,
    cursor: Cursor,
) -> Cursor
    requires { AsksAt IsExpr source.now part.now nesting at lent.old stack.old top holds depth cursor }
    ensures same { Same lent.old lent.new }
    ensures answers { AnswersAt IsExpr source.now part.now nesting at lent.old stack.old lent.new stack.new top holds depth cursor result }
{
    let kind = table_entries::kind_at(part, 0);
    match kind {
        KIND_BINARY => pair(
            source, lent, stack, part, nesting, at, top, holds, depth, cursor,
        ),
        KIND_IF_EXPRESSION => conditional(
            source, lent, stack, part, nesting, at, top, holds, depth, cursor,
        ),
        KIND_BLOCK_EXPRESSION => body(
            source, lent, stack, part, nesting, at, top, holds, depth, cursor,
        ),
        _ => if kind < KIND_FUNCTION {
            let env = &mut *lent.env;
            let k = compile_emit::known_of(
                kind,
                table_entries::a_at(part, 0),
                env,
                top,
                source.known,
            );
            stack[depth] = compile_emit::leaf_type(kind, k);
            let done = compile_emit::leaf(kind, table_entries::b_at(part, 0), k, lent.out, cursor);
            compile_emit::finish(lent.ends, at, done)
        } else {
            simple(
                source,
                lent,
                stack,
                &part[0..],
                nesting,
                at,
                top,
                holds,
                depth,
                cursor,
            )
        },
    }
}

// A statement, or a label among them.
#[cycle(arms_assign_block_body_choose_conditional_expression_items_operands_pair_repeat_select_simple_statement_turns_when)]
pub fn statement(
    source: &Source,
    lent: &mut Lent,
    stack: &mut [u8],
    part: &[u8],
    nesting: usize,
    at: usize,
    top: usize,
    holds: usize,
    depth: usize,
    cursor: Cursor,
) -> Cursor
    requires { AsksAt IsStmt source.now part.now nesting at lent.old stack.old top holds depth cursor }
    ensures same { Same lent.old lent.new }
    ensures answers { AnswersAt IsStmt source.now part.now nesting at lent.old stack.old lent.new stack.new top holds depth cursor result }
{
    let kind = table_entries::kind_at(part, 0);
    match kind {
        KIND_BLOCK => block(
            source, lent, stack, part, nesting, at, top, holds, depth, cursor,
        ),
        KIND_LABEL => {
            let done = compile_output::shape(lent.out, cursor, holds, stack, depth);
            compile_emit::finish(lent.ends, at, done)
        },
        KIND_ASSIGN => assign(
            source, lent, stack, part, nesting, at, top, holds, depth, cursor,
        ),
        KIND_IF => when(
            source, lent, stack, part, nesting, at, top, holds, depth, cursor,
        ),
        KIND_IF_ELSE => choose(
            source, lent, stack, part, nesting, at, top, holds, depth, cursor,
        ),
        KIND_WHILE => repeat(
            source, lent, stack, part, nesting, at, top, holds, depth, cursor,
        ),
        KIND_GOTO => {
            let env = &mut *lent.env;
            let done = compile_emit::goto(
                table_entries::a_at(part, 0),
                env,
                top,
                source.aims,
                holds,
                stack,
                depth,
                lent.out,
                cursor,
            );
            compile_emit::finish(lent.ends, at, done)
        },
        KIND_CASE => select(
            source, lent, stack, part, nesting, at, top, holds, depth, cursor,
        ),
        KIND_FOR => turns(
            source, lent, stack, part, nesting, at, top, holds, depth, cursor,
        ),
        _ => simple(
            source,
            lent,
            stack,
            &part[0..],
            nesting,
            at,
            top,
            holds,
            depth,
            cursor,
        ),
    }
}
