// What a body takes of its limits (refusal 6): working need, cells, and holds open together.
#![tactic(auto)]

pub mod sums;

ghost use Rattle.std.specs.Prelude.{◌≡◌, ◌+◌, ◌*◌, ◌^◌, ◌≤◌, ◌<◌, length};
ghost use Rattle.language_laws.specs.Claims.{entries_of};
ghost use Rattle.table_read.specs.Walk.{kind_at};
ghost use Rattle.table_limits.specs.Sums.{alone_of, Level};
ghost use Rattle.table_limits.specs.Usage.{leaf_at, usage_at, Bounded, head_at, HeadBounded, items_at, root_of, Limits};

use formats::entries::*;
use formats::limits::*;
use sums::Used;

// Whether an entry of a kind without operands stands there, and is not nested too deep: most entries are such.
fn leaf(part: &[u8], nesting: usize) -> bool
    ensures { result ≡ leaf_at nesting (entries_of part.now) }
{
    if nesting == 0 {
        return false;
    }
    if part.len() < ENTRY_BYTES {
        return false;
    }
    table_read::kinds::is_leaf(table_read::kind_of(part))
}

fn leaf_usage(part: &[u8]) -> Used
    requires { 8 ≤ length part.now }
    ensures { result ≡ alone_of (kind_at (entries_of part.now)) }
{
    sums::alone(table_read::kind_of(part))
}

// What an entry and all that stands below it take; none where the table ends before it, or it is nested too deep. The function calls itself on each
// operand, on the part that begins with it.
pub fn usage_of(part: &[u8], nesting: usize) -> Option<Used>
    ensures { (result ≡ usage_at nesting (entries_of part.now)) × Bounded result (length part.now) }
{
    if nesting == 0 {
        return None;
    }
    if part.len() < ENTRY_BYTES {
        return None;
    }
    let kind = table_read::kind_of(part);
    let name = table_read::name_of(part);
    let head = sums::head_of(kind, name);
    let count = table_read::kinds::count(kind, name, table_read::size_of(part));
    let mut rest = &part[ENTRY_BYTES..];
    let mut sum = sums::alone(kind);
    let mut open: usize = 0;
    for i in 0..count {
        let u = if leaf(rest, nesting - 1) {
            leaf_usage(rest)
        } else {
            usage_of(rest, nesting - 1)?
        };
        let at = ENTRY_BYTES * u.entries;
        rest = &rest[at..];
        sum = sums::join(sum, u, sums::weight(kind, i), open);
        open += sums::kept(head, i, u.holds);
    }
    Some(sum)
}

// What the declarations of the root's head take of the root's own, none where one does not read; or the place of a procedure that is over its limits.
// A place counts from the root, which own begins with.
fn root_head(part: &[u8], count: u16) -> Result<Option<Used>, usize>
    ensures { (result ≡ head_at count (entries_of part.now)) × HeadBounded result (length part.now) }
{
    let mut rest = part;
    let mut own = sums::alone(KIND_BLOCK);
    for i in 0..count {
        let Some(u) = usage_of(rest, BELOW_ROOT) else {
            return Ok(None);
        };
        let kind = table_read::kind_of(rest);
        if sums::over(kind, u) {
            return Err(own.entries);
        }
        own = sums::declared(kind, own, u);
        let at = ENTRY_BYTES * u.entries;
        rest = &rest[at..];
    }
    Ok(Some(own))
}

// The root's statements, whose holds are open on top of those of its head.
fn root_items(part: &[u8], count: u32, own: Used) -> Option<Used>
    requires { Level own × (8 * own.entries + length part.now < 2 ^ 63) }
    ensures { result ≡ items_at count own (entries_of part.now) }
{
    let mut rest = part;
    let mut sum = own;
    for i in 0..count {
        let u = usage_of(rest, BELOW_ROOT)?;
        let at = ENTRY_BYTES * u.entries;
        rest = &rest[at..];
        sum = sums::join(sum, u, 0, own.holds);
    }
    Some(sum)
}

// The entry of the first body over its limits: procedures in their order, then the root. Of a table that does not read it says nothing.
pub fn over_limits(table: &[u8]) -> Result<(), usize>
    ensures { Limits table.now result }
{
    if table.len() < ENTRY_BYTES {
        return Ok(());
    }
    let Some(own) = root_head(&table[ENTRY_BYTES..], table_read::name_of(table))? else {
        return Ok(());
    };
    let at = ENTRY_BYTES * own.entries;
    root_limit(root_items(&table[at..], table_read::size_of(table), own))
}

fn root_limit(u: Option<Used>) -> Result<(), usize>
    ensures { result ≡ root_of u }
{
    match u {
        Some(sum) if !sums::keeps(sum) => Err(0),
        _ => Ok(()),
    }
}
