// Heads: the names of a block, a parameter list or the root are pushed before anything in it is judged, since all are visible
// throughout; then its declarations are judged.
ghost use Rattle.std.specs.Prelude.{◌≡◌, ◌&&◌, ◌∷◌, ◌++◌, ◌+◌, ◌*◌, ◌≤◌, ◌<◌, length, eqb, ltb};
ghost use Rattle.logic.specs.Choice.{If◌then◌else◌};
ghost use Rattle.table_scopes.specs.Environment.{item, add_all, env_of, Grown};
ghost use Rattle.table_entries.specs.Sizes.{Known};
ghost use Rattle.table_scopes.specs.Items.{one_at, items_at, labels_from, Reach, global_at, globals_from, WithinGlobal, ReachGlobals, block_items, root_items, a_at, b_at};
ghost use Rattle.table_scopes.specs.Filter.{Covers};
ghost use Rattle.table_scopes.specs.Spared.{Spared};
ghost use Rattle.table_scopes.specs.Flaws.{Says, once_flaw, class_flaw, decl_flaws, head_flaws};

use crate::numbers::*;
use crate::{environment, spans};
use formats::entries::*;
use table_entries::Fault;

// The names in sight after a block's labels were pushed, and whether none of them is a name that the block had before.
// Kept (point 1): no Option, since the names stay in sight whichever `once` is.
#[derive(Clone, Copy)]
pub struct Labelled {
    pub top: usize,
    pub once: bool,
}

// The name that the entry at a place defines, where it is of this kind; by a filter of the names that the block has.
#[tactic(auto, unfolding(crate::specs::Items::one_at, crate::specs::Environment::add_all))]
fn add_one_by(
    seen: &mut [u8],
    table: &[u8],
    place: usize,
    kind: u16,
    sort: u32,
    env: &mut [u32],
    top: usize,
) -> usize
    requires { (8 * (place + 1) ≤ length table.now) × (length table.now ≤ 16384) × (4 * (top + length (one_at kind sort table.now place)) ≤ length env.old)
        × Covers seen.old (env_of env.old top) }
    ensures { Grown top env.old env.new result
        (add_all (one_at kind sort table.now place) (env_of env.old top)) (length (one_at kind sort table.now place))
        × Covers seen.new (env_of env.new result) }
{
    if table_entries::kind_at(table, place) != kind {
        return top;
    }
    environment::add(
        seen,
        env,
        top,
        table_entries::a_at(table, place) as u32,
        sort,
        table_entries::b_at(table, place),
        place as u32,
    )
}

// The same with no filter.
fn add_one(table: &[u8], place: usize, kind: u16, sort: u32, env: &mut [u32], top: usize) -> usize
    requires { (8 * (place + 1) ≤ length table.now) × (length table.now ≤ 16384) × (4 * (top + length (one_at kind sort table.now place)) ≤ length env.old) }
    ensures { Grown top env.old env.new result
        (add_all (one_at kind sort table.now place) (env_of env.old top)) (length (one_at kind sort table.now place)) }
{
    add_one_by(&mut [], table, place, kind, sort, env, top)
}

// The variables of a head, the parameters of a procedure, or the fields of a class, by the sort given.
pub fn add_head(
    table: &[u8],
    at: usize,
    count: usize,
    sort: u32,
    env: &mut [u32],
    top: usize,
) -> usize
    requires { (8 * (at + count) ≤ length table.now) × (length table.now ≤ 16384) × (4 * (top + length (items_at sort table.now at count)) ≤ length env.old) }
    ensures { Grown top env.old env.new result (add_all (items_at sort table.now at count) (env_of env.old top))
        (length (items_at sort table.now at count)) }
{
    let mut up = top;
    for place in at..at + count {
        up = add_one(table, place, KIND_DECLARE, sort, env, up);
    }
    up
}

// Fewer items than these are searched sooner than a filter is cleared.
const FEW: usize = 64;

// Whether a label was pushed, where one stands, and all those before it were.
fn all_pushed(before: bool, kind: u16, top: usize, up: usize) -> bool
    ensures { result ≡ (If eqb kind 20 then «before» && ltb top up else «before») }
{
    if kind == KIND_LABEL {
        before && top < up
    } else {
        before
    }
}

// The labels among the items of a block, by a filter of the names that it has.
fn add_labels_by(
    seen: &mut [u8],
    table: &[u8],
    at: usize,
    count: usize,
    sizes: &[u16],
    env: &mut [u32],
    top: usize,
) -> Labelled
    requires { Known table.now sizes.now × Reach table.now at count × (length table.now ≤ 16384) × (4 * (top + length (labels_from table.now at count)) ≤ length env.old)
        × Covers seen.old (env_of env.old top) }
    ensures { Grown top env.old env.new result.top (add_all (labels_from table.now at count) (env_of env.old top))
        (length (labels_from table.now at count)) × Spared result.once table.now (env_of env.new result.top) at count }
{
    let mut place = at;
    let mut up = top;
    let mut once = true;
    for left in (0..count).rev() {
        let more = add_one_by(seen, table, place, KIND_LABEL, SORT_LABEL, env, up);
        once = all_pushed(once, table_entries::kind_at(table, place), up, more);
        up = more;
        place += spans::size_at(sizes, place);
    }
    Labelled { top: up, once }
}

// The labels of a block. Where there are many items, most names are told by a filter to be new, and need not be searched for.
fn add_labels(
    table: &[u8],
    at: usize,
    count: usize,
    sizes: &[u16],
    env: &mut [u32],
    top: usize,
) -> Labelled
    requires { Known table.now sizes.now × Reach table.now at count × (length table.now ≤ 16384) × (4 * (top + length (labels_from table.now at count)) ≤ length env.old) }
    ensures { Grown top env.old env.new result.top (add_all (labels_from table.now at count) (env_of env.old top))
        (length (labels_from table.now at count)) × Spared result.once table.now (env_of env.new result.top) at count }
{
    if count < FEW {
        return add_labels_by(&mut [], table, at, count, sizes, env, top);
    }
    let mut seen = [0u8; environment::SLOTS];
    environment::note_block(env, top, &mut seen);
    add_labels_by(&mut seen, table, at, count, sizes, env, top)
}

// A class with its fields, a procedure, or a variable of the root's head.
#[tactic(auto, unfolding(crate::specs::Items::global_at))]
fn add_global(table: &[u8], place: usize, env: &mut [u32], top: usize) -> usize
    requires { WithinGlobal table.now place × (length table.now ≤ 16384) × (4 * (top + length (global_at table.now place)) ≤ length env.old) }
    ensures { Grown top env.old env.new result (add_all (global_at table.now place) (env_of env.old top)) (length (global_at table.now place)) }
{
    let kind = table_entries::kind_at(table, place);
    match kind {
        KIND_CLASS => add_class(table, place, env, top),
        KIND_PROCEDURE => add_one(table, place, KIND_PROCEDURE, SORT_PROCEDURE, env, top),
        _ => add_one(table, place, KIND_DECLARE, SORT_VARIABLE, env, top),
    }
}

// The sort of a field is the number of the type that it is a field of.
fn add_class(table: &[u8], place: usize, env: &mut [u32], top: usize) -> usize
    requires { (8 * (place + 1 + b_at table.now place) ≤ length table.now) × (length table.now ≤ 16384)
        × (4 * (top + length (one_at 11 6 table.now place ++ items_at (65536 + a_at table.now place) table.now (place + 1) (b_at table.now place))) ≤ length env.old) }
    ensures { Grown top env.old env.new result
        (add_all (one_at 11 6 table.now place ++ items_at (65536 + a_at table.now place) table.now (place + 1) (b_at table.now place))
        (env_of env.old top)) (length (one_at 11 6 table.now place
        ++ items_at (65536 + a_at table.now place) table.now (place + 1) (b_at table.now place))) }
{
    let up = add_one(table, place, KIND_CLASS, SORT_CLASS, env, top);
    let sort = TYPE_REFERENCE + table_entries::a_at(table, place) as u32;
    add_head(
        table,
        place + 1,
        table_entries::b_at(table, place) as usize,
        sort,
        env,
        up,
    )
}

fn add_globals(table: &[u8], count: usize, sizes: &[u16], env: &mut [u32], top: usize) -> usize
    requires { Known table.now sizes.now × ReachGlobals table.now 1 count × (length table.now ≤ 16384) × (4 * (top + length (globals_from table.now 1 count)) ≤ length env.old) }
    ensures { Grown top env.old env.new result (add_all (globals_from table.now 1 count) (env_of env.old top))
        (length (globals_from table.now 1 count)) }
{
    let mut place = 1;
    let mut up = top;
    for left in (0..count).rev() {
        up = add_global(table, place, env, up);
        place += spans::size_at(sizes, place);
    }
    up
}

// The root's names, above nothing: `after` is the place of the first of its items.
pub fn open_root(
    table: &[u8],
    heads: usize,
    after: usize,
    items: usize,
    sizes: &[u16],
    env: &mut [u32],
) -> Labelled
    requires { Known table.now sizes.now × ReachGlobals table.now 1 heads × Reach table.now after items × (length table.now ≤ 16384)
        × (4 * (1 + length (root_items table.now heads after items)) ≤ length env.old) }
    ensures { Grown 0 env.old env.new result.top (add_all (root_items table.now heads after items) (item 65536 0 0 0 ∷ env_of env.old 0))
        (1 + length (root_items table.now heads after items)) × Spared result.once table.now (env_of env.new result.top) after items }
{
    environment::push(env, 0, MARK_OPENED, 0, 0, 0);
    let up = add_globals(table, heads, sizes, env, 1);
    add_labels(table, after, items, sizes, env, up)
}

// The same, for whom it is enough how many names are in sight.
pub fn enter_root(
    table: &[u8],
    heads: usize,
    after: usize,
    items: usize,
    sizes: &[u16],
    env: &mut [u32],
) -> usize
    requires { Known table.now sizes.now × ReachGlobals table.now 1 heads × Reach table.now after items × (length table.now ≤ 16384)
        × (4 * (1 + length (root_items table.now heads after items)) ≤ length env.old) }
    ensures { Grown 0 env.old env.new result (add_all (root_items table.now heads after items) (item 65536 0 0 0 ∷ env_of env.old 0))
        (1 + length (root_items table.now heads after items)) }
{
    open_root(table, heads, after, items, sizes, env).top
}

// A block or a block expression, by the mark given: the names that step 1 finds.
pub fn open(
    table: &[u8],
    at: usize,
    heads: usize,
    items: usize,
    mark: u32,
    sizes: &[u16],
    env: &mut [u32],
    top: usize,
) -> Labelled
    requires { Known table.now sizes.now × (8 * (at + heads) ≤ length table.now) × Reach table.now (at + heads) items × (length table.now ≤ 16384)
        × (4 * (top + (1 + length (block_items table.now at heads items))) ≤ length env.old) }
    ensures { Grown top env.old env.new result.top
        (add_all (block_items table.now at heads items) (item mark 0 0 0 ∷ env_of env.old top))
        (1 + length (block_items table.now at heads items)) × Spared result.once table.now (env_of env.new result.top) (at + heads) items }
{
    environment::push(env, top, mark, 0, 0, 0);
    let up = add_head(table, at, heads, SORT_VARIABLE, env, top + 1);
    add_labels(table, at + heads, items, sizes, env, up)
}

// The same, for whom it is enough how many names are in sight.
pub fn enter(
    table: &[u8],
    at: usize,
    heads: usize,
    items: usize,
    mark: u32,
    sizes: &[u16],
    env: &mut [u32],
    top: usize,
) -> usize
    requires { Known table.now sizes.now × (8 * (at + heads) ≤ length table.now) × Reach table.now (at + heads) items × (length table.now ≤ 16384)
        × (4 * (top + (1 + length (block_items table.now at heads items))) ≤ length env.old) }
    ensures { Grown top env.old env.new result
        (add_all (block_items table.now at heads items) (item mark 0 0 0 ∷ env_of env.old top))
        (1 + length (block_items table.now at heads items)) }
{
    open(table, at, heads, items, mark, sizes, env, top).top
}

// A procedure heading: the formal parameters, which step 2 finds, behind a wall, since no goto leaves a procedure.
pub fn enter_procedure(
    table: &[u8],
    at: usize,
    parameters: usize,
    env: &mut [u32],
    top: usize,
) -> usize
    requires { (8 * (at + parameters) ≤ length table.now) × (length table.now ≤ 16384) × (4 * (top + (1 + length (items_at 4 table.now at parameters))) ≤ length env.old) }
    ensures { Grown top env.old env.new result
        (add_all (items_at 4 table.now at parameters) (item 65537 0 0 0 ∷ env_of env.old top))
        (1 + length (items_at 4 table.now at parameters)) }
{
    environment::push(env, top, MARK_SHUT, 0, 0, 0);
    add_head(table, at, parameters, SORT_VARIABLE, env, top + 1)
}

// A for clause at a place: the control identifier, which step 3 finds, in a block of its own; it is an integer.
pub fn enter_loop(name: u32, place: usize, env: &mut [u32], top: usize) -> usize
    requires { (place < 2048) × (4 * (top + 2) ≤ length env.old) }
    ensures { (result ≡ top + 2) × Grown top env.old env.new result
        (item name 8 1 place ∷ (item 65536 0 0 0 ∷ env_of env.old top)) 2 }
{
    environment::push(env, top, MARK_OPENED, 0, 0, 0);
    environment::push(env, top + 1, name, SORT_CONTROL, TYPE_INTEGER, place as u32);
    top + 2
}

// The definition at `place` is the one that its block has of the name: of two the first is found.
pub fn once(env: &[u32], top: usize, name: u32, place: usize) -> Result<u32, Fault>
    requires { 4 * top ≤ length env.now }
    ensures { Says result (once_flaw (env_of env.now top) name place) }
{
    match environment::find(env, top, name) {
        None => Err(Fault::Unnamed(place)),
        Some(d) => if d.place as usize == place {
            Ok(0)
        } else {
            Err(Fault::Unnamed(place))
        },
    }
}

// The class that a declared type names.
fn classed(env: &[u32], top: usize, ty: u32, place: usize) -> Result<u32, Fault>
    requires { 4 * top ≤ length env.now }
    ensures { Says result (class_flaw (env_of env.now top) ty place) }
{
    if ty < TYPE_REFERENCE {
        return Ok(0);
    }
    match environment::find(env, top, ty - TYPE_REFERENCE) {
        None => Err(Fault::Unnamed(place)),
        Some(d) => if d.sort == SORT_CLASS {
            Ok(0)
        } else {
            Err(Fault::Mistyped(place))
        },
    }
}

// One declaration of a head; a hold defines nothing.
#[tactic(auto, unfolding(crate::specs::Flaws::decl_flaws))]
fn declared(table: &[u8], at: usize, env: &[u32], top: usize) -> Result<u32, Fault>
    requires { (8 * (at + 1) ≤ length table.now) × (4 * top ≤ length env.now) }
    ensures { Says result (decl_flaws table.now (env_of env.now top) at) }
{
    if table_entries::kind_at(table, at) == KIND_DECLARE {
        once(env, top, table_entries::a_at(table, at) as u32, at)?;
        classed(env, top, table_entries::b_at(table, at), at)
    } else {
        Ok(0)
    }
}

// Declarations one after the other.
pub fn head(table: &[u8], at: usize, count: usize, env: &[u32], top: usize) -> Result<u32, Fault>
    requires { (8 * (at + count) ≤ length table.now) × (4 * top ≤ length env.now) }
    ensures { Says result (head_flaws table.now (env_of env.now top) at count) }
{
    for place in at..at + count {
        declared(table, place, env, top)?;
    }
    Ok(0)
}
