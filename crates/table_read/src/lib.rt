// The reader of tables (refusals 1 and 2). An entry and its operands call each other, the remaining nesting falling; each is given the part of
// the table after the entry that it is an operand of, with the place at which that part begins, and passes on further parts that start inside it.
// The answer is how many entries were read, or the place of the first that does not read. How many entries each entry has with all that stands
// below it is noted at its place, for the passes after this one.
#![tactic(auto)]

pub mod kinds;
pub mod layout;

ghost use Rattle.std.specs.Prelude.{◌≡◌, ◌+◌, ◌≤◌, ◌<◌, length, set};
ghost use Rattle.language.specs.Table.{read_table};
ghost use Rattle.language_laws.specs.Claims.{entries_of};
ghost use Rattle.table_entries.specs.Faults.{told};
ghost use Rattle.table_read.specs.Operands.{sorts};
ghost use Rattle.table_read.specs.Walk.{reading_of, placed, chain, laid_at, stands_at, admitted_at, kind_at, name_at, size_at, walk, under, entered, is_global};
ghost use Rattle.table_read.specs.Walk.{tally as tally_of, walk_head, walk_below, walk_root};
ghost use Rattle.table_read.specs.Filling.{Room, Fills, Wide, Hands};

use formats::entries::*;
use formats::limits::*;
use kinds::Sort;
use table_entries::Fault;

// ── the entry at the start of a part ──
pub fn kind_of(part: &[u8]) -> u16
    requires { 8 ≤ length part.now }
    ensures { result ≡ kind_at (entries_of part.now) }
{
    table_entries::kind_at(part, 0)
}

pub fn name_of(part: &[u8]) -> u16
    requires { 8 ≤ length part.now }
    ensures { result ≡ name_at (entries_of part.now) }
{
    table_entries::a_at(part, 0)
}

pub fn size_of(part: &[u8]) -> u32
    requires { 8 ≤ length part.now }
    ensures { result ≡ size_at (entries_of part.now) }
{
    layout::magnitude(table_entries::signed_b_at(part, 0))
}

// Whether an entry stands there and keeps to the layout.
fn laid(part: &[u8]) -> bool
    ensures { result ≡ laid_at (entries_of part.now) }
{
    if part.len() < ENTRY_BYTES {
        return false;
    }
    layout::in_layout(
        table_entries::kind_at(part, 0),
        table_entries::a_at(part, 0),
        table_entries::signed_b_at(part, 0),
    )
}

fn stands(part: &[u8], kind: u16) -> bool
    ensures { result ≡ stands_at kind (entries_of part.now) }
{
    if part.len() < ENTRY_BYTES {
        return false;
    }
    if kind_of(part) != kind {
        return false;
    }
    laid(part)
}

// ── statements and expressions ──
// Whether an operand of this sort stands there, not too deep; nothing is read below it. The layout of an entry with no operands is told by few
// tests, and most entries are such.
fn admitted(part: &[u8], sort: Sort, nesting: usize) -> bool
    ensures { result ≡ admitted_at nesting sort (entries_of part.now) }
{
    if nesting == 0 {
        return false;
    }
    if part.len() < ENTRY_BYTES {
        return false;
    }
    let kind = kind_of(part);
    if !kinds::admits(sort, kind) {
        return false;
    }
    let a = table_entries::a_at(part, 0);
    let b = table_entries::signed_b_at(part, 0);
    if kinds::is_leaf(kind) {
        layout::leaf_layout(kind, a, b)
    } else {
        layout::in_layout(kind, a, b)
    }
}

// The entry at a place, with so many below it: its size is noted.
fn whole(sizes: &mut [u16], place: usize, n: usize) -> usize
    requires { (place < length sizes.old) × (n < 65535) }
    ensures { (result ≡ 1 + n) × (sizes.new ≡ set sizes.old place (1 + n)) }
{
    sizes[place] = (1 + n) as u16;
    1 + n
}

// The operands of an entry; part begins with the first of them, which is at a place of the table.
#[cycle(operands_read_entry)]
fn operands(
    part: &[u8],
    place: usize,
    sizes: &mut [u16],
    kind: u16,
    a: u16,
    n: u32,
    nesting: usize,
) -> Result<usize, usize>
    requires { Room part.now place sizes.old }
    ensures { (result ≡ placed place (chain (walk nesting) (sorts kind a n) (entries_of part.now)))
        × Fills (entries_of part.now) place sizes.old sizes.new result }
{
    let mut rest = part;
    let mut passed: usize = 0;
    for i in 0..kinds::count(kind, a, n) {
        let here = place + passed;
        if !admitted(rest, kinds::sort_of(kind, a, n, i), nesting) {
            return Err(here);
        }
        let k = read_entry(rest, here, sizes, nesting - 1)?;
        let at = ENTRY_BYTES * k;
        rest = &rest[at..];
        passed += k;
    }
    Ok(passed)
}

// The entry there with all that stands below it; so much nesting is left for its operands. One with no operands is answered without a call.
#[cycle(operands_read_entry)]
fn read_entry(part: &[u8], place: usize, sizes: &mut [u16], nesting: usize) -> Result<usize, usize>
    requires { (8 ≤ length part.now) × Room part.now place sizes.old }
    ensures { (result ≡ placed place (under (walk nesting) (entries_of part.now)))
        × Fills (entries_of part.now) place sizes.old sizes.new result }
{
    let kind = kind_of(part);
    if kinds::is_leaf(kind) {
        return Ok(whole(sizes, place, 0));
    }
    let below = operands(
        &part[ENTRY_BYTES..],
        place + 1,
        sizes,
        kind,
        name_of(part),
        size_of(part),
        nesting,
    )?;
    Ok(whole(sizes, place, below))
}

// ── the root ──
// At most 16 classes and 63 procedures.
#[tactic(auto, unfolding(crate::specs::Walk::is_global))]
fn is_global(kind: u16, classes: usize, procedures: usize) -> bool
    ensures { result ≡ is_global classes procedures kind }
{
    match kind {
        KIND_CLASS => classes < MAX_CLASSES,
        KIND_PROCEDURE => procedures < MAX_PROCEDURES,
        KIND_DECLARE | KIND_HOLD => true,
        _ => false,
    }
}

fn read_global(
    part: &[u8],
    place: usize,
    sizes: &mut [u16],
    classes: usize,
    procedures: usize,
) -> Result<usize, usize>
    requires { Room part.now place sizes.old }
    ensures { (result ≡ placed place (entered (walk 62) (is_global classes procedures) (entries_of part.now)))
        × Fills (entries_of part.now) place sizes.old sizes.new result }
{
    if !laid(part) {
        return Err(place);
    }
    if !is_global(kind_of(part), classes, procedures) {
        return Err(place);
    }
    read_entry(part, place, sizes, BELOW_HEAD)
}

pub fn tally(kind: u16, of: u16) -> usize
    ensures { result ≡ tally_of kind of }
{
    usize::from(kind == of)
}

// The declarations of the root's head, which begin at place 1.
fn read_head(part: &[u8], sizes: &mut [u16], count: u16) -> Result<usize, usize>
    requires { Room part.now 1 sizes.old }
    ensures { (result ≡ placed 1 (walk_head count 0 0 (entries_of part.now)))
        × Fills (entries_of part.now) 1 sizes.old sizes.new result }
{
    let mut rest = part;
    let mut passed: usize = 0;
    let mut classes: usize = 0;
    let mut procedures: usize = 0;
    for i in 0..count {
        let k = read_global(rest, 1 + passed, sizes, classes, procedures)?;
        let kind = kind_of(rest);
        let at = ENTRY_BYTES * k;
        rest = &rest[at..];
        passed += k;
        classes += tally(kind, KIND_CLASS);
        procedures += tally(kind, KIND_PROCEDURE);
    }
    Ok(passed)
}

// What stands below the root, which is at depth 1 of 64: 63 are left for its statements, and 62 below a declaration of its head.
fn below_root(part: &[u8], sizes: &mut [u16], a: u16, n: u32) -> Result<usize, usize>
    requires { Room part.now 1 sizes.old }
    ensures { (result ≡ placed 1 (walk_below a n (entries_of part.now)))
        × Fills (entries_of part.now) 1 sizes.old sizes.new result }
{
    let k = read_head(part, sizes, a)?;
    let at = ENTRY_BYTES * k;
    let m = operands(&part[at..], 1 + k, sizes, KIND_BLOCK, 0, n, BELOW_ROOT)?;
    Ok(k + m)
}

fn read_root(part: &[u8], sizes: &mut [u16]) -> Result<usize, usize>
    requires { Room part.now 0 sizes.old }
    ensures { (result ≡ walk_root (entries_of part.now))
        × Fills (entries_of part.now) 0 sizes.old sizes.new result }
{
    if !stands(part, KIND_BLOCK) {
        return Err(0);
    }
    let below = below_root(&part[ENTRY_BYTES..], sizes, name_of(part), size_of(part))?;
    Ok(whole(sizes, 0, below))
}

// Whether a table is one tree within the layout; any bytes. Where it is, the sizes of all its entries are left.
pub fn read_table(table: &[u8], sizes: &mut [u16]) -> Result<(), Fault>
    requires { Wide table.now sizes.old }
    ensures { (told result ≡ reading_of (read_table table.now)) × Hands table.now sizes.new result }
{
    let bytes = table.len();
    if bytes == 0 || MAX_TABLE_BYTES < bytes || bytes % ENTRY_BYTES != 0 {
        return Err(Fault::Misshapen);
    }
    let n = read_root(table, sizes).map_err(Fault::Unread)?;
    if n == bytes / ENTRY_BYTES {
        Ok(())
    } else {
        Err(Fault::Unread(n))
    }
}
