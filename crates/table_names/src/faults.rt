// The first fault of a table that reads, in postorder: names, types and labels.
ghost use Rattle.std.specs.Prelude.{◌≡◌, ◌++◌, ◌+◌, ◌*◌, ◌≤◌, length};
ghost use Rattle.words.specs.Numbers.{half_at, word_at};
ghost use Rattle.table_entries.specs.Sizes.{Known};
ghost use Rattle.table_scopes.specs.Environment.{env_of};
ghost use Rattle.table_scopes.specs.Flaws.{Says, once_flaw, head_flaws};
ghost use Rattle.table_forms.specs.Root.{AsksBody, AnswersBody, result_flaw, AsksGlobal, AnswersGlobal, Any, IsProcedure};
ghost use Rattle.table_forms.specs.Tables.{AsksGlobals, AnswersGlobals, AsksRoot, AnswersRoot, Reads};
ghost use Rattle.table_names.specs.Answer.{GivesFirst};

use crate::walkers;
use formats::entries::*;
use formats::limits::*;
use table_entries::Fault;

// The body of a procedure: a statement, or an expression where there is a result.
fn body(
    table: &[u8],
    part: &[u8],
    res: u32,
    at: usize,
    sizes: &[u16],
    env: &mut [u32],
    top: usize,
) -> Result<u32, Fault>
    requires { AsksBody table.now part.now res at sizes.now env.old top }
    ensures { AnswersBody table.now part.now res at sizes.now env.old env.new top result }
{
    if res == 0 {
        walkers::statement(table, part, BELOW_HEAD, at, sizes, env, top)
    } else {
        walkers::expression(table, part, BELOW_HEAD, at, sizes, env, top)
    }
}

// Where a result is asked for, the body has its type.
#[tactic(auto, unfolding(table_forms::specs::Root::result_flaw))]
fn returned(heading: u32, t: u32, place: usize) -> Result<u32, Fault>
    ensures { Says result (result_flaw heading t place) }
{
    let result = heading % 256;
    if result == 0 {
        return Ok(0);
    }
    if result == t {
        Ok(0)
    } else {
        Err(Fault::Mistyped(place))
    }
}

// A procedure is declared once, and its body has the type of its result.
fn headed(heading: u32, t: u32, env: &[u32], top: usize, name: u32, at: usize) -> Result<u32, Fault>
    requires { 4 * top ≤ length env.now }
    ensures { Says result (once_flaw (env_of env.now top) name at ++ result_flaw heading t at) }
{
    table_scopes::once(env, top, name, at)?;
    returned(heading, t, at)
}

// A procedure: its heading, and behind the wall of that its body.
fn procedure(
    table: &[u8],
    part: &[u8],
    at: usize,
    sizes: &[u16],
    env: &mut [u32],
    top: usize,
) -> Result<u32, Fault>
    requires { AsksGlobal IsProcedure table.now part.now at sizes.now env.old top }
    ensures { AnswersGlobal IsProcedure table.now part.now at sizes.now env.old env.new top result }
{
    let heading = table_entries::b_at(part, 0);
    let name = table_entries::a_at(part, 0);
    let parameters = heading as usize / 256;
    let up = table_scopes::enter_procedure(table, at + 1, parameters, env, top);
    table_scopes::head(table, at + 1, parameters, env, up)?;
    let from = ENTRY_BYTES * (1 + parameters);
    let t = body(
        table,
        &part[from..],
        heading % 256,
        at + 1 + parameters,
        sizes,
        env,
        up,
    )?;
    headed(heading, t, env, top, name as u32, at)
}

// The fields of a class, and then the class itself.
fn class(table: &[u8], part: &[u8], at: usize, env: &[u32], top: usize) -> Result<u32, Fault>
    requires { (8 ≤ length part.now) × (8 * (at + 1 + word_at part.now 4) ≤ length table.now) × (4 * top ≤ length env.now) }
    ensures { Says result (head_flaws table.now (env_of env.now top) (at + 1) (word_at part.now 4)
        ++ once_flaw (env_of env.now top) (half_at part.now 2) at) }
{
    let fields = table_entries::b_at(part, 0) as usize;
    let name = table_entries::a_at(part, 0);
    table_scopes::head(table, at + 1, fields, env, top)?;
    table_scopes::once(env, top, name as u32, at)
}

fn global(
    table: &[u8],
    part: &[u8],
    at: usize,
    sizes: &[u16],
    env: &mut [u32],
    top: usize,
) -> Result<u32, Fault>
    requires { AsksGlobal Any table.now part.now at sizes.now env.old top }
    ensures { AnswersGlobal Any table.now part.now at sizes.now env.old env.new top result }
{
    let kind = table_entries::kind_at(part, 0);
    match kind {
        KIND_CLASS => class(table, part, at, env, top),
        KIND_PROCEDURE => procedure(table, part, at, sizes, env, top),
        _ => table_scopes::head(table, at, 1, env, top),
    }
}

fn globals(
    table: &[u8],
    count: usize,
    sizes: &[u16],
    env: &mut [u32],
    top: usize,
) -> Result<u32, Fault>
    requires { AsksGlobals table.now count sizes.now env.old top }
    ensures { AnswersGlobals table.now count sizes.now env.old env.new top result }
{
    let mut place = 1;
    for left in (0..count).rev() {
        let from = ENTRY_BYTES * place;
        global(table, &table[from..], place, sizes, env, top)?;
        place += table_scopes::size_at(sizes, place);
    }
    Ok(0)
}

// The root: its names, its declarations, its items.
fn root(table: &[u8], sizes: &[u16], env: &mut [u32]) -> Result<u32, Fault>
    requires { AsksRoot table.now sizes.now env.old }
    ensures { AnswersRoot table.now sizes.now env.old result }
{
    let count = table_entries::a_at(table, 0) as usize;
    let rest = table_entries::b_at(table, 0) as usize;
    let after = 1 + table_scopes::spanned(table, sizes, 1, count);
    let opened = table_scopes::open_root(table, count, after, rest, sizes, env);
    let top = opened.top;
    globals(table, count, sizes, env, top)?;
    let from = ENTRY_BYTES * after;
    walkers::items(
        table,
        &table[from..],
        rest,
        BELOW_ROOT,
        after,
        sizes,
        env,
        top,
        opened.once,
    )
}

// Twice the entries are room enough for the names: those of the root stay while a procedure's are judged.
pub fn first_fault(table: &[u8], sizes: &[u16], env: &mut [u32]) -> Result<(), Fault>
    requires { Reads table.now × Known table.now sizes.now × (length table.now ≤ length env.old) }
    ensures { GivesFirst table.now result }
{
    root(table, sizes, env)?;
    Ok(())
}
