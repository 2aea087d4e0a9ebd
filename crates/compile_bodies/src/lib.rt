// The code of the root and of the procedures, one after the other.
#![tactic(auto)]

ghost use Rattle.std.specs.Prelude.{◌≡◌, ◌≤◌, length};
ghost use Rattle.language.specs.Tree.{locals};
ghost use Rattle.language.specs.Limits.{head_holds};
ghost use Rattle.compile_output.specs.EmitRecord.{Fits};
ghost use Rattle.compile_output.specs.EmitCode.{cursor_after, emitted};
ghost use Rattle.compile_symbols.specs.Tabled.{the_tree, Headed};
ghost use Rattle.compile_whole.specs.Heads.{root_head};
ghost use Rattle.compile_whole.specs.Stage.{Prepared, lent_of};
ghost use Rattle.compile_whole.specs.Procs.{AsksProc, AnswersProc};
ghost use Rattle.compile_whole.specs.Loop.{AsksGlobal, AnswersGlobal, AsksProcs, AnswersProcs};
ghost use Rattle.compile_whole.specs.Walks.{AsksRoot, AnswersRoot, AsksWalk, AnswersWalk};
ghost use Rattle.compile_walk.specs.Given.{Same, arrays};

use compile_output::Cursor;
use compile_walk::{Lent, Source};
use formats::compiled::*;
use formats::entries::*;
use formats::limits::*;

// The root's own declarations; classes and procedures have no code there.
fn declare_globals(source: &Source, count: usize, out: &mut [u8], cursor: Cursor) -> Cursor
    requires { Prepared (the_tree source.now.table.now) source.now.table.now source.now.sizes.now source.now.known.now
        × (count ≡ length (the_tree source.now.table.now).head) × Fits (cursor_after (root_head (the_tree source.now.table.now)) cursor) (length out.old) }
    ensures { (result ≡ cursor_after (root_head (the_tree source.now.table.now)) cursor)
        × (out.new ≡ emitted (root_head (the_tree source.now.table.now)) cursor out.old) }
{
    let mut place = 1;
    let mut p = cursor;
    for i in 0..count {
        let from = ENTRY_BYTES * place;
        let k = compile_symbols::known_at(source.known, place);
        p = compile_emit::declare_one(&source.table[from..], k, out, p);
        place += table_scopes::size_at(source.sizes, place);
    }
    p
}

// How many of them are holds.
fn root_holds(table: &[u8], count: usize, sizes: &[u16]) -> usize
    requires { Headed table.now sizes.now count }
    ensures { result ≡ head_holds (locals (the_tree table.now).head) }
{
    let mut place = 1;
    let mut n = 0;
    for i in 0..count {
        n += compile_emit::holds_by(table_entries::kind_at(table, place));
        place += table_scopes::size_at(sizes, place);
    }
    n
}

// Its head, its items, the releases, and the end.
fn root(
    source: &Source,
    lent: &mut Lent,
    stack: &mut [u8],
    count: usize,
    after: usize,
    top: usize,
    cursor: Cursor,
) -> Cursor
    requires { AsksRoot source.now.table.now count after source.now.sizes.now (arrays lent.old stack.old) top source.now.known.now source.now.aims.now cursor }
    ensures same { Same lent.old lent.new }
    ensures answers { AnswersRoot source.now.table.now (arrays lent.old stack.old) (arrays lent.new stack.new) top cursor result }
{
    let items = table_entries::b_at(source.table, 0) as usize;
    let held = root_holds(source.table, count, source.sizes);
    let p = declare_globals(source, count, lent.out, cursor);
    let from = ENTRY_BYTES * after;
    let q = compile_walk::items(
        source,
        lent,
        stack,
        &source.table[from..],
        items,
        BELOW_ROOT,
        after,
        top,
        held,
        0,
        p,
    );
    let r = compile_output::releases(lent.out, q, held);
    let s = compile_output::emit(lent.out, r, OP_END, 0, 0);
    compile_emit::finish(lent.ends, 0, s)
}

// A procedure: its parameters' names behind a wall, its body, and the return.
fn procedure(
    source: &Source,
    lent: &mut Lent,
    stack: &mut [u8],
    part: &[u8],
    at: usize,
    top: usize,
    cursor: Cursor,
) -> Cursor
    requires { AsksProc source.now.table.now part.now at source.now.sizes.now lent.old.env.now top source.now.known.now source.now.aims.now lent.old.ends.now stack.old lent.old.out.now cursor }
    ensures same { Same lent.old lent.new }
    ensures answers { AnswersProc source.now.table.now part.now at source.now.sizes.now (arrays lent.old stack.old)
        (arrays lent.new stack.new) top source.now.known.now source.now.aims.now cursor result }
{
    let heading = table_entries::b_at(part, 0);
    let parameters = heading as usize / 256;
    let up = table_scopes::enter_procedure(source.table, at + 1, parameters, lent.env, top);
    let from = ENTRY_BYTES * (1 + parameters);
    if heading % 256 == 0 {
        let p = compile_walk::statement(
            source,
            lent,
            stack,
            &part[from..],
            BELOW_HEAD,
            at + 1 + parameters,
            up,
            0,
            0,
            cursor,
        );
        let q = compile_output::emit(lent.out, p, OP_RETURN, 0, 0);
        return compile_emit::finish(lent.ends, at, q);
    }
    let p = compile_walk::expression(
        source,
        lent,
        stack,
        &part[from..],
        BELOW_HEAD,
        at + 1 + parameters,
        up,
        0,
        0,
        cursor,
    );
    let q = compile_output::emit(lent.out, p, OP_RETURN, 0, 0);
    compile_emit::finish(lent.ends, at, q)
}

// A declaration of the root: only a procedure has code of its own.
fn global(
    source: &Source,
    lent: &mut Lent,
    stack: &mut [u8],
    part: &[u8],
    at: usize,
    top: usize,
    cursor: Cursor,
) -> Cursor
    requires { AsksGlobal source.now.table.now part.now at source.now.sizes.now (arrays lent.old stack.old) top source.now.known.now source.now.aims.now cursor }
    ensures same { Same lent.old lent.new }
    ensures answers { AnswersGlobal source.now.table.now part.now at source.now.sizes.now (arrays lent.old stack.old)
        (arrays lent.new stack.new) top source.now.known.now source.now.aims.now cursor result }
{
    if table_entries::kind_at(part, 0) == KIND_PROCEDURE {
        return procedure(source, lent, stack, part, at, top, cursor);
    }
    cursor
}

fn procedures(
    source: &Source,
    lent: &mut Lent,
    stack: &mut [u8],
    count: usize,
    top: usize,
    cursor: Cursor,
) -> Cursor
    requires { AsksProcs source.now.table.now count source.now.sizes.now (arrays lent.old stack.old) top source.now.known.now source.now.aims.now cursor }
    ensures same { Same lent.old lent.new }
    ensures answers { AnswersProcs source.now.table.now (arrays lent.old stack.old) (arrays lent.new stack.new) top cursor result }
{
    let mut place = 1;
    let mut p = cursor;
    for i in 0..count {
        let from = ENTRY_BYTES * place;
        p = global(source, lent, stack, &source.table[from..], place, top, p);
        place += table_scopes::size_at(source.sizes, place);
    }
    p
}

// One walk of the whole table, from a cursor; the root's names are in sight.
pub fn walk(
    source: &Source,
    env: &mut [u32],
    ends: &mut [u16],
    stack: &mut [u8],
    out: &mut [u8],
    count: usize,
    after: usize,
    top: usize,
    cursor: Cursor,
) -> Cursor
    requires { AsksWalk source.now.table.now count after source.now.sizes.now env.old top source.now.known.now source.now.aims.now ends.old out.old cursor × (32 ≤ length stack.old) }
    ensures { AnswersWalk source.now.table.now (lent_of env.old ends.old stack.old out.old)
        (lent_of env.new ends.new stack.new out.new) top cursor result }
{
    let mut lent = Lent { env, ends, out };
    let p = root(source, &mut lent, stack, count, after, top, cursor);
    procedures(
        source,
        &mut lent,
        stack,
        count,
        top,
        Cursor { inside: true, ..p },
    )
}
