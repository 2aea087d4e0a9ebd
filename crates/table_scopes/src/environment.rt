// The names in sight: a stack in lent numbers, four to an item: name, sort, number and place. They lie in the order of the steps of section 3 of
// 000, so that a lookup, going down, takes the steps in their order. Topmost are
//   step 1: the names of the smallest block around, its declarations and labels (`open`), down to the mark that it begins with; below it,
//   step 2: where that block is a procedure body, the formal parameters of the heading (`enter_procedure`), down to a wall;
//   step 3: where a for clause precedes it, the control identifier (`enter_loop`), which stands on a mark of its own;
// and then, in the same order, what belongs to the smallest block around that block.
ghost use Rattle.std.specs.Prelude.{◌≡◌, ◌||◌, ◌∷◌, [], ◌+◌, ◌*◌, ◌≤◌, length, eqb};
ghost use Rattle.std.proofs.lemmas.List.Edits.{sets};
ghost use Rattle.table_scopes.specs.Filter.{absent_in, noted, Covers};
ghost use Rattle.table_scopes.specs.Environment.{item, find, found_of, here, adding, env_of, shut, Grown};

use crate::numbers::*;

// What is found of a name that is in sight.
#[derive(Clone, Copy)]
pub struct Definition {
    pub sort: u32,
    pub number: u32,
    pub place: u32,
    // whether a block expression or a procedure lies between
    pub walled: bool,
}

// What stands above the first `top` items is free.
pub fn push(env: &mut [u32], top: usize, name: u32, sort: u32, number: u32, place: u32)
    requires { 4 * (top + 1) ≤ length env.old }
    ensures { env.new ≡ sets env.old (4 * top) (name ∷ sort ∷ number ∷ place ∷ []) }
{
    let at = 4 * top;
    env[at] = name;
    env[at + 1] = sort;
    env[at + 2] = number;
    env[at + 3] = place;
}

// Whether the item of this name is a wall, once one was passed.
fn walled(passed: bool, name: u32) -> bool
    ensures { result ≡ («passed» || eqb name shut) }
{
    passed || name == MARK_SHUT
}

// The definition of a name that is in sight, by the rules of section 3 of 000.
pub fn find(env: &[u32], top: usize, name: u32) -> Option<Definition>
    requires { 4 * top ≤ length env.now }
    ensures { found_of result ≡ find name (env_of env.now top) }
{
    let mut passed = false;
    for i in (0..top).rev() {
        let at = 4 * i;
        let n = env[at];
        // Step 1, step 2 or step 3: whichever finds the name first.
        if n == name {
            return Some(Definition {
                sort: env[at + 1],
                number: env[at + 2],
                place: env[at + 3],
                walled: passed,
            });
        }
        // Otherwise the next step, and after the third the next block.
        passed = walled(passed, n);
    }
    None
}

// Whether the innermost block defines the name.
fn here(env: &[u32], top: usize, name: u32) -> bool
    requires { 4 * top ≤ length env.now }
    ensures { result ≡ here name (env_of env.now top) }
{
    for i in (0..top).rev() {
        let n = env[4 * i];
        if LAST_NAME < n {
            return false;
        }
        if n == name {
            return true;
        }
    }
    false
}

// ── a filter of the innermost block's names ──
// A name has the slot of its remainder by 2,048; where that holds 0, the block has no such name. A filter of another length says nothing.
pub const SLOTS: usize = 2048;

fn absent(seen: &[u8], name: u32) -> bool
    ensures { result ≡ absent_in seen.now name }
{
    if seen.len() != SLOTS {
        return false;
    }
    let slot = name as usize % SLOTS;
    seen[slot] == 0
}

fn note(seen: &mut [u8], name: u32)
    ensures { seen.new ≡ noted seen.old name }
{
    if seen.len() == SLOTS {
        let slot = name as usize % SLOTS;
        seen[slot] = 1;
    }
}

// The names that the innermost block has.
pub fn note_block(env: &[u32], top: usize, seen: &mut [u8])
    requires { 4 * top ≤ length env.now }
    ensures { Covers seen.new (env_of env.now top) × (length seen.new ≡ length seen.old) }
{
    for i in (0..top).rev() {
        let n = env[4 * i];
        if LAST_NAME < n {
            return;
        }
        note(seen, n);
    }
}

// Whether the innermost block defines the name: mostly the filter says no.
fn here_by(seen: &[u8], env: &[u32], top: usize, name: u32) -> bool
    requires { (4 * top ≤ length env.now) × Covers seen.now (env_of env.now top) }
    ensures { result ≡ here name (env_of env.now top) }
{
    if absent(seen, name) {
        return false;
    }
    here(env, top, name)
}

// One definition more, unless the block has one of that name: of two in a block the first counts.
pub fn add(
    seen: &mut [u8],
    env: &mut [u32],
    top: usize,
    name: u32,
    sort: u32,
    number: u32,
    place: u32,
) -> usize
    requires { (4 * (top + 1) ≤ length env.old) × Covers seen.old (env_of env.old top) }
    ensures { Grown top env.old env.new result (adding (item name sort number place) (env_of env.old top)) 1
        × Covers seen.new (env_of env.new result) }
{
    if here_by(seen, env, top, name) {
        return top;
    }
    push(env, top, name, sort, number, place);
    note(seen, name);
    top + 1
}
