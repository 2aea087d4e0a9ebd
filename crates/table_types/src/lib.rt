// What an entry makes of the types of its operands, which stand above the names in sight. A type is one number, 0 for none.
// Kept (point 1): no Option of a type, since the lent numbers hold it as one number, and so do `operated_by` and `typed_by`.
#![tactic(auto)]

mod kinds;

ghost use Rattle.std.specs.Prelude.{◌≡◌, ◌+◌, ◌*◌, ◌%◌, ◌/◌, ◌≤◌, ◌<◌, length, get_or, eqb, true};
ghost use Rattle.table_scopes.specs.Environment.{env_of, find};
ghost use Rattle.table_types.specs.Settle.{values, if_both, if_either, operated_by, typed_by, same_all, types_at, right_if, has_value, aimed_by, called_by, recorded_by};
ghost use Rattle.table_types.specs.Settle.{named_by, names_by, settled_by, counted_by, controls, is_leaf, leaf_by, Within, WithinCall, WithinRecord};

use formats::entries::*;
use table_entries::Fault;
use table_scopes::Definition;
use table_scopes::numbers::*;

fn operand(env: &[u32], top: usize, i: usize, count: usize) -> u32
    requires { 4 * (top + count) ≤ length env.now }
    ensures { result ≡ get_or (values count (env_of env.now (top + count))) i 0 }
{
    if i < count {
        let at = 4 * (top + i) + 2;
        env[at]
    } else {
        0
    }
}

fn if_both(x: bool, y: bool, t: u32) -> u32
    ensures { result ≡ if_both x y t }
{
    if x && y { t } else { 0 }
}

fn if_either(x: bool, y: bool, t: u32) -> u32
    ensures { result ≡ if_either x y t }
{
    if x || y { t } else { 0 }
}

// Operators that take logical or bits give what they take.
fn joined(t: u32, u: u32) -> u32
    ensures { result ≡ if_both (eqb t u) true (if_either (eqb t 2) (eqb t 3) t) }
{
    if t == u {
        if_either(t == TYPE_LOGICAL, t == TYPE_BITS, t)
    } else {
        0
    }
}

// The type that an operator gives, and 0 where the operands are not those that it takes.
#[tactic(auto, unfolding(crate::specs::Settle::operated_by))]
fn operated(op: u32, t: u32, u: u32) -> u32
    ensures { result ≡ operated_by op t u }
{
    match op {
        10 | 11 => if_both(t == u, t != 0, TYPE_LOGICAL),
        12 | 13 => joined(t, u),
        14 | 15 => if_both(t == TYPE_BITS, u == TYPE_INTEGER, TYPE_BITS),
        20 | 21 => if_both(t == TYPE_INTEGER, true, TYPE_INTEGER),
        22 => if_either(t == TYPE_LOGICAL, t == TYPE_BITS, t),
        _ => if op < 6 {
            if_both(t == TYPE_INTEGER, u == TYPE_INTEGER, TYPE_INTEGER)
        } else {
            if_both(t == TYPE_INTEGER, u == TYPE_INTEGER, TYPE_LOGICAL)
        },
    }
}

// The same for an entry of any kind that names nothing; a statement gives 1.
#[tactic(auto, unfolding(crate::specs::Settle::typed_by))]
fn typed(kind: u32, a: u32, t: u32, u: u32, w: u32) -> u32
    ensures { result ≡ typed_by kind a t u w }
{
    match kind {
        kinds::ASSIGN => if_both(t == u, t != 0, 1),
        kinds::ASSERT => if_both(t == TYPE_LOGICAL, true, 1),
        kinds::SET => if_both(t == TYPE_INTEGER, u == TYPE_INTEGER, 1),
        kinds::INTEGER => TYPE_INTEGER,
        kinds::LOGICAL => TYPE_LOGICAL,
        kinds::BITS => TYPE_BITS,
        kinds::IF_EXPRESSION => if_both(t == TYPE_LOGICAL, true, if_both(u == w, u != 0, u)),
        kinds::FADER => if_both(t == TYPE_INTEGER, true, TYPE_INTEGER),
        _ => operated(a, t, u),
    }
}

// Whether the operands have the types that are declared at the entries from `from` on, as many and each its own.
fn fitting(
    table: &[u8],
    from: usize,
    declared: usize,
    count: usize,
    env: &[u32],
    top: usize,
) -> bool
    requires { (4 * (top + count) ≤ length env.now) × (8 * (from + declared) ≤ length table.now) }
    ensures { result ≡ same_all (values count (env_of env.now (top + count))) (types_at table.now from declared) }
{
    if declared != count {
        return false;
    }
    for i in 0..count {
        let t = operand(env, top, i, count);
        let u = table_entries::b_at(table, from + i);
        if t != u {
            return false;
        }
    }
    true
}

fn right_if(b: bool, t: u32, place: usize) -> Result<u32, Fault>
    ensures { result ≡ right_if b t place }
{
    if b {
        Ok(t)
    } else {
        Err(Fault::Mistyped(place))
    }
}

// A variable, a parameter or a control name, by the sort.
fn has_value(sort: u32) -> bool
    ensures { result ≡ has_value sort }
{
    matches!(sort, SORT_VARIABLE | SORT_CONTROL)
}

// A goto, by the definition of what it names.
fn aimed(d: Definition, place: usize) -> Result<u32, Fault>
    ensures { result ≡ aimed_by d.sort d.walled place }
{
    if d.sort != SORT_LABEL {
        return Err(Fault::Mistyped(place));
    }
    if d.walled {
        Err(Fault::OutOfReach(place))
    } else {
        Ok(1)
    }
}

// A call, whose result is or is not asked for; the number of a procedure is 256 × parameters + result.
fn called(
    table: &[u8],
    d: Definition,
    right: bool,
    place: usize,
    count: usize,
    env: &[u32],
    top: usize,
) -> Result<u32, Fault>
    requires { (4 * (top + count) ≤ length env.now) × WithinCall table.now d.sort d.number d.place }
    ensures { result ≡ called_by table.now d.sort d.number d.place right place (values count (env_of env.now (top + count))) }
{
    if d.sort != SORT_PROCEDURE {
        return Err(Fault::Mistyped(place));
    }
    if !right {
        return Err(Fault::Mistyped(place));
    }
    let parameters = d.number as usize / 256;
    right_if(
        fitting(table, d.place as usize + 1, parameters, count, env, top),
        d.number % 256,
        place,
    )
}

// A record of the class that a defines; the number of a class is that of its fields.
fn recorded(
    table: &[u8],
    a: u32,
    d: Definition,
    place: usize,
    count: usize,
    env: &[u32],
    top: usize,
) -> Result<u32, Fault>
    requires { (4 * (top + count) ≤ length env.now) × (a < 65536) × WithinRecord table.now d.sort d.number d.place }
    ensures { result ≡ recorded_by table.now a d.sort d.number d.place place (values count (env_of env.now (top + count))) }
{
    if d.sort != SORT_CLASS {
        return Err(Fault::Mistyped(place));
    }
    let fields = d.number as usize;
    right_if(
        fitting(table, d.place as usize + 1, fields, count, env, top),
        TYPE_REFERENCE + a,
        place,
    )
}

// An entry that names a definition. The sort of a field is the number of the type that it is a field of.
#[tactic(auto, unfolding(crate::specs::Settle::named_by))]
fn named(
    table: &[u8],
    kind: u32,
    a: u32,
    d: Definition,
    place: usize,
    count: usize,
    env: &[u32],
    top: usize,
) -> Result<u32, Fault>
    requires { (4 * (top + count) ≤ length env.now) × (a < 65536) × WithinCall table.now d.sort d.number d.place
        × WithinRecord table.now d.sort d.number d.place }
    ensures { result ≡ named_by table.now kind a d.sort d.number d.place d.walled place (values count (env_of env.now (top + count))) }
{
    match kind {
        kinds::GOTO => aimed(d, place),
        kinds::CALL => called(table, d, d.number % 256 == 0, place, count, env, top),
        kinds::NULL => right_if(d.sort == SORT_CLASS, TYPE_REFERENCE + a, place),
        kinds::VARIABLE => right_if(has_value(d.sort), d.number, place),
        kinds::FUNCTION => called(table, d, d.number % 256 != 0, place, count, env, top),
        kinds::FIELD => right_if(d.sort == operand(env, top, 0, count), d.number, place),
        _ => recorded(table, a, d, place, count, env, top),
    }
}

#[tactic(auto, unfolding(crate::specs::Settle::names_by))]
fn names(kind: u32) -> bool
    ensures { result ≡ names_by kind }
{
    matches!(
        kind,
        kinds::GOTO
            | kinds::CALL
            | kinds::NULL
            | kinds::VARIABLE
            | kinds::FUNCTION
            | kinds::FIELD
            | kinds::RECORD
    )
}

// The entry at `place`, whose operands' types were found.
#[tactic(auto, unfolding(crate::specs::Settle::settled_by))]
pub fn settle(
    table: &[u8],
    kind: u32,
    a: u32,
    place: usize,
    count: usize,
    env: &[u32],
    top: usize,
) -> Result<u32, Fault>
    requires { (4 * (top + count) ≤ length env.now) × (a < 65536) × Within table.now (find a (env_of env.now top)) }
    ensures { result ≡ settled_by table.now kind a place (find a (env_of env.now top)) (values count (env_of env.now (top + count))) }
{
    if names(kind) {
        match table_scopes::find(env, top, a) {
            None => Err(Fault::Unnamed(place)),
            Some(d) => named(table, kind, a, d, place, count, env, top),
        }
    } else {
        let t = typed(
            kind,
            a,
            operand(env, top, 0, count),
            operand(env, top, 1, count),
            operand(env, top, 2, count),
        );
        right_if(t != 0, t, place)
    }
}

// Start, step and limit of a for, whose types were found, are integers.
pub fn counted(place: usize, env: &[u32], top: usize) -> Result<u32, Fault>
    requires { 4 * (top + 3) ≤ length env.now }
    ensures { result ≡ counted_by place (values 3 (env_of env.now (top + 3))) }
{
    let t = if_both(
        operand(env, top, 0, 3) == TYPE_INTEGER,
        operand(env, top, 1, 3) == TYPE_INTEGER,
        operand(env, top, 2, 3),
    );
    right_if(t == TYPE_INTEGER, 1, place)
}

// Whether a name is that of a for in sight, "an integer of the loop only", which "cannot be assigned".
pub fn is_control(a: u32, env: &[u32], top: usize) -> bool
    requires { 4 * top ≤ length env.now }
    ensures { result ≡ controls (find a (env_of env.now top)) }
{
    match table_scopes::find(env, top, a) {
        None => false,
        Some(d) => d.sort == SORT_CONTROL,
    }
}

// An expression with nothing below it.
#[tactic(auto, unfolding(crate::specs::Settle::is_leaf))]
pub fn is_leaf(kind: u16) -> bool
    ensures { result ≡ is_leaf kind }
{
    matches!(
        kind,
        KIND_INTEGER | KIND_LOGICAL | KIND_BITS | KIND_NULL | KIND_VARIABLE
    )
}

// Such an expression at once: what `settle` gives for it.
#[tactic(auto, unfolding(crate::specs::Settle::leaf_by))]
pub fn leaf(kind: u16, a: u32, place: usize, env: &[u32], top: usize) -> Result<u32, Fault>
    requires { (4 * top ≤ length env.now) × (a < 65536) }
    ensures { result ≡ leaf_by kind a place (find a (env_of env.now top)) }
{
    match kind {
        KIND_INTEGER => Ok(TYPE_INTEGER),
        KIND_LOGICAL => Ok(TYPE_LOGICAL),
        KIND_BITS => Ok(TYPE_BITS),
        _ => match table_scopes::find(env, top, a) {
            None => Err(Fault::Unnamed(place)),
            Some(d) => if kind == KIND_NULL {
                right_if(d.sort == SORT_CLASS, TYPE_REFERENCE + a, place)
            } else {
                right_if(has_value(d.sort), d.number, place)
            },
        },
    }
}
