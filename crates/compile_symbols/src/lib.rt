// What each definition of a table stands for, by its place: 65,536 times the byte of its type, 256 times the first operand and then the
// second operand of the instructions that use it. A variable: whose cell (1: the root's), and the cell. A field: its class, and its
// index. A class: its number, and as its type that of a reference to it. A procedure: its body, and the type of its result. A case has
// a cell, too, and a for three, of which the first is its control name's. Any other entry: 0.
#![tactic(auto)]

ghost use Rattle.std.specs.Prelude.{◌≡◌, ◌+◌, ◌*◌, ◌/◌, ◌≤◌, ◌<◌, length, get_or};
ghost use Rattle.std.proofs.lemmas.List.Edits.{sets};
ghost use Rattle.language.specs.Tree.{Tree};
ghost use Rattle.language_laws.specs.Claims.{entries_of};
ghost use Rattle.table_scopes.specs.Environment.{env_of};
ghost use Rattle.table_entries.specs.Entries.{entry_at};
ghost use Rattle.compile_code.specs.Compile.{index_of};
ghost use Rattle.compile_symbols.specs.Numbers.{packed, type_in, first_in, second_in, byte_of, number_of};
ghost use Rattle.compile_symbols.specs.Tabled.{classes_in, Tabled, Headed, Holding, Within, between, part_at};
ghost use Rattle.compile_symbols.specs.Entries.{one_if, names_class, cells_of_kind, numbers_owned, numbers_global, Counts};
ghost use Rattle.compile_symbols.specs.Whole.{Numbered};
ghost use Rattle.compile_symbols.specs.Meaning.{meaning_of};

use formats::entries::*;

// A table, the sizes of its entries, and how many declarations its root has.
#[derive(Clone, Copy)]
struct Rooted<'a> {
    table: &'a [u8],
    sizes: &'a [u16],
    count: usize,
}

// ── one number of three ──
pub fn pack(ty: u32, a: u32, b: u32) -> u32
    requires { packed ty a b < 4294967296 }
    ensures { result ≡ packed ty a b }
{
    65536 * ty + 256 * a + b
}

pub fn type_in(known: u32) -> u8
    ensures { result ≡ type_in known }
{
    (known / 65536 % 256) as u8
}

pub fn first_in(known: u32) -> u8
    ensures { result ≡ first_in known }
{
    (known / 256 % 256) as u8
}

pub fn second_in(known: u32) -> u32
    ensures { result ≡ second_in known }
{
    known % 256
}

// What is known of the entry at a place.
pub fn known_at(known: &[u32], place: usize) -> u32
    ensures { result ≡ get_or known.now place 0 }
{
    known.get(place).copied().unwrap_or(0)
}

// What a name in sight stands for.
pub fn meaning(env: &[u32], top: usize, name: u16, known: &[u32]) -> u32
    requires { 4 * top ≤ length env.now }
    ensures { result ≡ meaning_of name (env_of env.now top) known.now }
{
    match table_scopes::find(env, top, name as u32) {
        None => 0,
        Some(d) => known_at(known, d.place as usize),
    }
}

// ── types ──
// Whether a class of this name stands at a place.
fn names_class(table: &[u8], place: usize, name: u32) -> bool
    requires { place < length table.now / 8 }
    ensures { result ≡ names_class name (entry_at table.now place) }
{
    table_entries::kind_at(table, place) == KIND_CLASS
        && table_entries::a_at(table, place) as u32 == name
}

// 1 for an entry of this kind, 0 for any other.
pub fn one_if(kind: u16, wanted: u16) -> usize
    ensures { result ≡ one_if kind wanted }
{
    (kind == wanted) as usize
}

// How many classes stand before the one of this name.
fn class_number(root: &Rooted, name: u32) -> usize
    requires { Headed root.now.table.now root.now.sizes.now root.now.count }
    ensures { result ≡ index_of name (classes_in root.now.table.now) }
{
    let mut place = 1;
    let mut n = 0;
    for i in 0..root.count {
        if names_class(root.table, place, name) {
            return n;
        }
        n += one_if(table_entries::kind_at(root.table, place), KIND_CLASS);
        place += table_scopes::size_at(root.sizes, place);
    }
    n
}

// The byte of a declared type.
fn type_byte(root: &Rooted, ty: u32) -> u32
    requires { Headed root.now.table.now root.now.sizes.now root.now.count }
    ensures { result ≡ byte_of (classes_in root.now.table.now) ty }
{
    if ty < 65536 {
        ty
    } else {
        16 + class_number(root, ty - 65536) as u32
    }
}

// ── cells ──
// An entry before which there are so many cells of the owner: a body, or a class of which it is a field.
fn entry_known(root: &Rooted, place: usize, owner: usize, cell: usize) -> u32
    requires { Headed root.now.table.now root.now.sizes.now root.now.count × (place < length root.now.table.now / 8) × (owner ≤ 2048) × (cell ≤ 6144) }
    ensures { result ≡ number_of (classes_in root.now.table.now) owner cell (entry_at root.now.table.now place) }
{
    let kind = table_entries::kind_at(root.table, place);
    match kind {
        KIND_DECLARE => pack(
            type_byte(root, table_entries::b_at(root.table, place)),
            owner as u32,
            cell as u32,
        ),
        KIND_CASE => pack(1, 0, cell as u32),
        KIND_FOR => pack(1, 0, cell as u32),
        _ => 0,
    }
}

pub fn cells_of(kind: u16) -> usize
    ensures { result ≡ cells_of_kind kind }
{
    match kind {
        KIND_DECLARE => 1,
        KIND_CASE => 1,
        KIND_FOR => 3,
        _ => 0,
    }
}

// The entries of a body, or the fields of a class, from a place to another.
fn number_cells(
    root: &Rooted,
    from: usize,
    to: usize,
    owner: usize,
    first: usize,
    known: &mut [u32],
)
    requires { Headed root.now.table.now root.now.sizes.now root.now.count × (from ≤ to) × (to ≤ length root.now.table.now / 8)
        × (to ≤ length known.old) × (owner ≤ 2048) × (first ≤ 3 * from) }
    ensures { known.new ≡ sets known.old from (numbers_owned (classes_in root.now.table.now) owner first (between from to (entries_of root.now.table.now))) }
{
    let mut cell = first;
    for place in from..to {
        known[place] = entry_known(root, place, owner, cell);
        cell += cells_of(table_entries::kind_at(root.table, place));
    }
}

// ── the root's head ──
// What there was of each before a declaration of the root's head.
#[derive(Clone, Copy)]
pub struct Numbers {
    pub cells: usize,
    pub classes: usize,
    // with the root's
    pub bodies: usize,
}

// What there is of each after a declaration.
fn counted(kind: u16, n: Numbers) -> Numbers
    requires { (n.cells ≤ 6144) × (n.classes ≤ 2048) × (n.bodies ≤ 2048) }
    ensures { Counts kind n result }
{
    Numbers {
        cells: n.cells + cells_of(kind),
        classes: n.classes + one_if(kind, KIND_CLASS),
        bodies: n.bodies + one_if(kind, KIND_PROCEDURE),
    }
}

// The entries of a declaration.
fn number_global(root: &Rooted, place: usize, n: Numbers, known: &mut [u32])
    requires { Headed root.now.table.now root.now.sizes.now root.now.count × Within root.now.table.now root.now.sizes.now place × (length root.now.table.now / 8 ≤ length known.old)
        × (n.cells ≤ 6144) × (n.classes ≤ 2048) × (n.bodies ≤ 2048) }
    ensures { known.new ≡ sets known.old place (numbers_global (classes_in root.now.table.now) n (part_at root.now.table.now root.now.sizes.now place)) }
{
    let end = place + table_scopes::size_at(root.sizes, place);
    let kind = table_entries::kind_at(root.table, place);
    match kind {
        KIND_CLASS => {
            let class = n.classes;
            known[place] = pack(16 + class as u32, class as u32, 0);
            number_cells(root, place + 1, end, class, 0, known);
        }
        KIND_PROCEDURE => {
            known[place] = pack(
                table_entries::b_at(root.table, place) % 256,
                0,
                n.bodies as u32,
            );
            number_cells(root, place + 1, end, 0, 0, known);
        }
        _ => {
            known[place] = entry_known(root, place, 1, n.cells);
        }
    }
}

// The whole table, whose root has so many declarations.
pub fn number_all(table: &[u8], count: usize, sizes: &[u16], known: &mut [u32]) -> Numbers
    requires { Holding table.now sizes.now count × (length table.now / 8 ≤ length known.old) }
    ensures { (t : Tree) → Tabled table.now sizes.now t → Numbered t known.old known.new result }
{
    let root = Rooted {
        table,
        sizes,
        count,
    };
    let mut place = 1;
    let mut n = Numbers {
        cells: 0,
        classes: 0,
        bodies: 1,
    };
    for i in 0..count {
        number_global(&root, place, n, known);
        n = counted(table_entries::kind_at(table, place), n);
        place += table_scopes::size_at(sizes, place);
    }
    number_cells(&root, place, table.len() / ENTRY_BYTES, 0, n.cells, known);
    n
}
