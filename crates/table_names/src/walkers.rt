// The walkers: statements and expressions call each other, the remaining nesting falling. Each gets the part of the table that begins
// where it stands and passes on parts that start inside it; the whole table is there for the types that a declaration elsewhere gives.
ghost use Rattle.std.specs.Prelude.{◌≡◌, ◌&&◌, ◌+◌, ◌*◌, ◌≤◌, eqb, length};
ghost use Rattle.words.specs.Numbers.{half_at};
ghost use Rattle.table_scopes.specs.Environment.{env_of, find};
ghost use Rattle.table_scopes.specs.Spared.{Spared};
ghost use Rattle.table_forms.specs.Forms.{ExprForm, StmtForm, SimpleForm, GuardForm, CountForm, BlockForm, BodyForm};
ghost use Rattle.table_forms.specs.Block.{AsksContents, AnswersContents};
ghost use Rattle.table_forms.specs.Walk.{Asks, Answers, Typed, AsksEs, AnswersEs, Alike, AsksItems, AnswersItems, fixed_by, operands_by};
ghost use Rattle.table_forms.specs.Walk.{is_plain, guarded_by, tested_by};

use formats::entries::*;
use table_entries::Fault;
use table_scopes::numbers::*;

// The expressions below an entry that has no other operands.
#[tactic(auto, unfolding(table_forms::specs::Walk::operands_by))]
fn operands_of(kind: u16, b: u32) -> usize
    ensures { result ≡ operands_by kind b }
{
    match kind {
        KIND_ASSERT | KIND_FIELD | KIND_UNARY | KIND_FADER => 1,
        KIND_ASSIGN | KIND_SET | KIND_BINARY => 2,
        KIND_IF_EXPRESSION => 3,
        KIND_CALL | KIND_FUNCTION | KIND_RECORD => b as usize,
        _ => 0,
    }
}

// A statement with expressions only below it.
#[tactic(auto, unfolding(table_forms::specs::Walk::is_plain))]
fn is_plain(kind: u16) -> bool
    ensures { result ≡ is_plain kind }
{
    matches!(
        kind,
        KIND_ASSIGN | KIND_GOTO | KIND_ASSERT | KIND_CALL | KIND_SET
    )
}

// The statements below an entry that has one expression before them.
#[tactic(auto, unfolding(table_forms::specs::Walk::guarded_by))]
fn guarded_of(kind: u16, a: u16) -> usize
    ensures { result ≡ guarded_by kind a }
{
    match kind {
        KIND_IF_ELSE => 2,
        KIND_CASE => a as usize,
        _ => 1,
    }
}

// The condition of an if or a while is logical, the selector of a case an integer.
#[tactic(auto, unfolding(table_forms::specs::Walk::tested_by))]
fn tested(kind: u16, t: u32, place: usize) -> Result<u32, Fault>
    ensures { result ≡ tested_by kind t place }
{
    let asked = if kind == KIND_CASE {
        TYPE_INTEGER
    } else {
        TYPE_LOGICAL
    };
    if t == asked {
        Ok(1)
    } else {
        Err(Fault::Mistyped(place))
    }
}

// Whether the part begins with an assignment to a control name. That is a fault at the target, which comes before all others of the statement.
#[tactic(auto, unfolding(table_forms::specs::Walk::fixed_by))]
fn is_fixed(part: &[u8], kind: u16, env: &[u32], top: usize) -> bool
    requires { (kind ≡ half_at part.now 0) × (half_at part.now 0 ≡ 21 → 16 ≤ length part.now) × (4 * top ≤ length env.now) }
    ensures { result ≡ fixed_by part.now (find (half_at part.now 10) (env_of env.now top)) }
{
    if kind != KIND_ASSIGN {
        return false;
    }
    if table_entries::kind_at(part, 1) != KIND_VARIABLE {
        return false;
    }
    table_types::is_control(table_entries::a_at(part, 1) as u32, env, top)
}

// Expressions one after the other, whose types are left above the names in sight.
#[cycle(block_body_contents_counted_expression_guarded_item_items_operand_operands_simple_statement)]
fn operands(
    table: &[u8],
    part: &[u8],
    count: usize,
    nesting: usize,
    at: usize,
    sizes: &[u16],
    env: &mut [u32],
    top: usize,
) -> Result<u32, Fault>
    requires { AsksEs table.now part.now count nesting at sizes.now env.old top }
    ensures { AnswersEs table.now part.now count nesting at sizes.now env.old env.new top result }
{
    let mut rest = part;
    let mut place = at;
    for i in 0..count {
        let t = operand(table, rest, nesting, place, sizes, env, top, i)?;
        table_scopes::push(env, top + i, MARK_VALUE, 0, t, 0);
        let n = table_scopes::size_at(sizes, place);
        let from = ENTRY_BYTES * n;
        rest = &rest[from..];
        place += n;
    }
    Ok(0)
}

// The expression after i of them. Most are leaves: such a one is answered without a call, and its name is looked up below the types.
#[cycle(block_body_contents_counted_expression_guarded_item_items_operand_operands_simple_statement)]
fn operand(
    table: &[u8],
    part: &[u8],
    nesting: usize,
    at: usize,
    sizes: &[u16],
    env: &mut [u32],
    top: usize,
    i: usize,
) -> Result<u32, Fault>
    requires { Asks ExprForm table.now part.now nesting at sizes.now env.old (top + i) × Alike env.old top i }
    ensures { Typed ExprForm table.now part.now nesting at sizes.now env.old env.new (top + i) result }
{
    let kind = table_entries::kind_at(part, 0);
    if table_types::is_leaf(kind) {
        table_types::leaf(kind, table_entries::a_at(part, 0) as u32, at, env, top)
    } else {
        expression(table, part, nesting, at, sizes, env, top + i)
    }
}

// An entry with expressions only below it.
#[cycle(block_body_contents_counted_expression_guarded_item_items_operand_operands_simple_statement)]
fn simple(
    table: &[u8],
    part: &[u8],
    nesting: usize,
    at: usize,
    sizes: &[u16],
    env: &mut [u32],
    top: usize,
) -> Result<u32, Fault>
    requires { Asks SimpleForm table.now part.now nesting at sizes.now env.old top }
    ensures { Typed SimpleForm table.now part.now nesting at sizes.now env.old env.new top result }
{
    let kind = table_entries::kind_at(part, 0);
    let name = table_entries::a_at(part, 0);
    if is_fixed(part, kind, env, top) {
        return Err(Fault::Mistyped(at + 1));
    }
    let count = operands_of(kind, table_entries::b_at(part, 0));
    let below = &part[ENTRY_BYTES..];
    operands(table, below, count, nesting - 1, at + 1, sizes, env, top)?;
    table_types::settle(table, kind as u32, name as u32, at, count, env, top)
}

// An expression, and the statements that it guards. (This function, `counted` and `body` stay functions of their own when they are compiled: in `statement`
// or `expression` their room would be on the stack at each level of every nesting. include/desk.h says how much that may be.)
#[inline(never)]
#[cycle(block_body_contents_counted_expression_guarded_item_items_operand_operands_simple_statement)]
fn guarded(
    table: &[u8],
    part: &[u8],
    nesting: usize,
    at: usize,
    sizes: &[u16],
    env: &mut [u32],
    top: usize,
) -> Result<u32, Fault>
    requires { Asks GuardForm table.now part.now nesting at sizes.now env.old top }
    ensures { Answers GuardForm table.now part.now nesting at sizes.now env.old env.new top result }
{
    let kind = table_entries::kind_at(part, 0);
    let count = guarded_of(kind, table_entries::a_at(part, 0));
    let below = &part[ENTRY_BYTES..];
    let t = expression(table, below, nesting - 1, at + 1, sizes, env, top)?;
    let n = table_scopes::size_at(sizes, at + 1);
    let from = ENTRY_BYTES * (1 + n);
    items(
        table,
        &part[from..],
        count,
        nesting - 1,
        at + 1 + n,
        sizes,
        env,
        top,
        false,
    )?;
    tested(kind, t, at)
}

// A for: start, step and limit, and then the statement, among whose names is the control name. What the three are is judged last.
#[inline(never)]
#[cycle(block_body_contents_counted_expression_guarded_item_items_operand_operands_simple_statement)]
fn counted(
    table: &[u8],
    part: &[u8],
    nesting: usize,
    at: usize,
    sizes: &[u16],
    env: &mut [u32],
    top: usize,
) -> Result<u32, Fault>
    requires { Asks CountForm table.now part.now nesting at sizes.now env.old top }
    ensures { Answers CountForm table.now part.now nesting at sizes.now env.old env.new top result }
{
    let control = table_entries::a_at(part, 0);
    let below = &part[ENTRY_BYTES..];
    operands(table, below, 3, nesting - 1, at + 1, sizes, env, top)?;
    let whole = table_types::counted(at, env, top);
    let n = table_scopes::spanned(table, sizes, at + 1, 3);
    let from = ENTRY_BYTES * (1 + n);
    let up = table_scopes::enter_loop(control as u32, at, env, top);
    statement(
        table,
        &part[from..],
        nesting - 1,
        at + 1 + n,
        sizes,
        env,
        up,
    )?;
    whole
}

// Labels and statements one after the other; `once` says that no label among them has a name that its block has already.
#[cycle(block_body_contents_counted_expression_guarded_item_items_operand_operands_simple_statement)]
pub fn items(
    table: &[u8],
    part: &[u8],
    count: usize,
    nesting: usize,
    at: usize,
    sizes: &[u16],
    env: &mut [u32],
    top: usize,
    once: bool,
) -> Result<u32, Fault>
    requires { AsksItems table.now part.now count nesting at sizes.now env.old top × Spared «once» table.now (env_of env.old top) at count }
    ensures { AnswersItems table.now part.now count nesting at sizes.now env.old env.new top result }
{
    let mut rest = part;
    let mut place = at;
    for left in (0..count).rev() {
        item(table, rest, nesting, place, sizes, env, top, once)?;
        let n = table_scopes::size_at(sizes, place);
        let from = ENTRY_BYTES * n;
        rest = &rest[from..];
        place += n;
    }
    Ok(0)
}

// Whether the entry is a label that needs no look at the names in sight.
fn is_spared(once: bool, kind: u16) -> bool
    ensures { result ≡ («once» && eqb kind 20) }
{
    once && kind == KIND_LABEL
}

// One of them. Most are plain: such a one is not handed on twice.
#[cycle(block_body_contents_counted_expression_guarded_item_items_operand_operands_simple_statement)]
fn item(
    table: &[u8],
    part: &[u8],
    nesting: usize,
    at: usize,
    sizes: &[u16],
    env: &mut [u32],
    top: usize,
    once: bool,
) -> Result<u32, Fault>
    requires { Asks StmtForm table.now part.now nesting at sizes.now env.old top × Spared «once» table.now (env_of env.old top) at 1 }
    ensures { Answers StmtForm table.now part.now nesting at sizes.now env.old env.new top result }
{
    let kind = table_entries::kind_at(part, 0);
    if is_plain(kind) {
        return simple(table, part, nesting, at, sizes, env, top);
    }
    if is_spared(once, kind) {
        Ok(0)
    } else {
        statement(table, part, nesting, at, sizes, env, top)
    }
}

// The head and the items of a block or a block expression, whose names are in sight.
#[cycle(block_body_contents_counted_expression_guarded_item_items_operand_operands_simple_statement)]
fn contents(
    table: &[u8],
    part: &[u8],
    heads: usize,
    count: usize,
    nesting: usize,
    at: usize,
    sizes: &[u16],
    env: &mut [u32],
    top: usize,
    once: bool,
) -> Result<u32, Fault>
    requires { AsksContents table.now part.now heads count nesting at sizes.now env.old top
        × Spared «once» table.now (env_of env.old top) (at + 1 + heads) count }
    ensures { AnswersContents table.now part.now heads count nesting at sizes.now env.old env.new top result }
{
    table_scopes::head(table, at + 1, heads, env, top)?;
    let from = ENTRY_BYTES * (1 + heads);
    items(
        table,
        &part[from..],
        count,
        nesting,
        at + 1 + heads,
        sizes,
        env,
        top,
        once,
    )
}

// A block: its names, and then what stands in it.
#[cycle(block_body_contents_counted_expression_guarded_item_items_operand_operands_simple_statement)]
fn block(
    table: &[u8],
    part: &[u8],
    nesting: usize,
    at: usize,
    sizes: &[u16],
    env: &mut [u32],
    top: usize,
) -> Result<u32, Fault>
    requires { Asks BlockForm table.now part.now nesting at sizes.now env.old top }
    ensures { Answers BlockForm table.now part.now nesting at sizes.now env.old env.new top result }
{
    let heads = table_entries::a_at(part, 0) as usize;
    let count = table_entries::b_at(part, 0) as usize;
    let opened = table_scopes::open(table, at + 1, heads, count, MARK_OPENED, sizes, env, top);
    contents(
        table,
        part,
        heads,
        count,
        nesting - 1,
        at,
        sizes,
        env,
        opened.top,
        opened.once,
    )
}

// A block expression: the same behind a wall, which no goto passes, and then its expression.
#[inline(never)]
#[cycle(block_body_contents_counted_expression_guarded_item_items_operand_operands_simple_statement)]
fn body(
    table: &[u8],
    part: &[u8],
    nesting: usize,
    at: usize,
    sizes: &[u16],
    env: &mut [u32],
    top: usize,
) -> Result<u32, Fault>
    requires { Asks BodyForm table.now part.now nesting at sizes.now env.old top }
    ensures { Typed BodyForm table.now part.now nesting at sizes.now env.old env.new top result }
{
    let heads = table_entries::a_at(part, 0) as usize;
    let count = table_entries::b_at(part, 0) as usize;
    let opened = table_scopes::open(table, at + 1, heads, count, MARK_SHUT, sizes, env, top);
    let up = opened.top;
    contents(
        table,
        part,
        heads,
        count,
        nesting - 1,
        at,
        sizes,
        env,
        up,
        opened.once,
    )?;
    let n = table_scopes::spanned(table, sizes, at + 1 + heads, count);
    let after = ENTRY_BYTES * (1 + heads + n);
    expression(
        table,
        &part[after..],
        nesting - 1,
        at + 1 + heads + n,
        sizes,
        env,
        up,
    )
}

#[cycle(block_body_contents_counted_expression_guarded_item_items_operand_operands_simple_statement)]
pub fn expression(
    table: &[u8],
    part: &[u8],
    nesting: usize,
    at: usize,
    sizes: &[u16],
    env: &mut [u32],
    top: usize,
) -> Result<u32, Fault>
    requires { Asks ExprForm table.now part.now nesting at sizes.now env.old top }
    ensures { Typed ExprForm table.now part.now nesting at sizes.now env.old env.new top result }
{
    if table_entries::kind_at(part, 0) == KIND_BLOCK_EXPRESSION {
        body(table, part, nesting, at, sizes, env, top)
    } else {
        simple(table, part, nesting, at, sizes, env, top)
    }
}

// A statement, or a label among them.
#[cycle(block_body_contents_counted_expression_guarded_item_items_operand_operands_simple_statement)]
pub fn statement(
    table: &[u8],
    part: &[u8],
    nesting: usize,
    at: usize,
    sizes: &[u16],
    env: &mut [u32],
    top: usize,
) -> Result<u32, Fault>
    requires { Asks StmtForm table.now part.now nesting at sizes.now env.old top }
    ensures { Answers StmtForm table.now part.now nesting at sizes.now env.old env.new top result }
{
    let kind = table_entries::kind_at(part, 0);
    match kind {
        KIND_BLOCK => block(table, part, nesting, at, sizes, env, top),
        KIND_LABEL => table_scopes::once(env, top, table_entries::a_at(part, 0) as u32, at),
        KIND_IF | KIND_IF_ELSE | KIND_WHILE | KIND_CASE => guarded(
            table, part, nesting, at, sizes, env, top,
        ),
        KIND_FOR => counted(table, part, nesting, at, sizes, env, top),
        _ => simple(table, part, nesting, at, sizes, env, top),
    }
}
