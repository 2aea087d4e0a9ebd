// What entries take of a body's limits, and how the operands of an entry are summed.
ghost use Rattle.std.specs.Prelude.{◌≡◌, ◌^◌, ◌<◌};
ghost use Rattle.table_limits.specs.Sums.{alone_of, weight_of, head_of, kept_of, joined, Small, keeps_all, over_of, declared_of};

use formats::entries::*;
use formats::limits::*;

#[derive(Clone, Copy)]
pub struct Used {
    pub entries: usize,
    pub need: usize,
    pub cells: usize,
    pub holds: usize,
}

// An entry that has no cell and no hold and needs no more than itself.
const ONE: Used = Used {
    entries: 1,
    need: 1,
    cells: 0,
    holds: 0,
};

// An entry without its operands: a variable and a case have a cell, and a case needs at least 2; a for has three cells.
#[tactic(auto, unfolding(crate::specs::Sums::alone_of))]
pub fn alone(kind: u16) -> Used
    ensures { result ≡ alone_of kind }
{
    match kind {
        KIND_DECLARE => Used { cells: 1, ..ONE },
        KIND_HOLD => Used { holds: 1, ..ONE },
        KIND_CASE => Used {
            need: 2,
            cells: 1,
            ..ONE
        },
        KIND_FOR => Used { cells: 3, ..ONE },
        _ => ONE,
    }
}

// How many values wait while the operand at i is computed: none where the operands before it leave none. In a for start waits, and start and step;
// none while its statement runs.
#[tactic(auto, unfolding(crate::specs::Sums::stacks))]
pub fn weight(kind: u16, i: usize) -> usize
    ensures { result ≡ weight_of kind i }
{
    match kind {
        KIND_ASSIGN
        | KIND_CALL
        | KIND_SET
        | KIND_FUNCTION
        | KIND_RECORD
        | KIND_BINARY
        | KIND_IF_EXPRESSION => i,
        KIND_FOR => if i == 3 { 0 } else { i },
        _ => 0,
    }
}

// How many of the operands are a block's head.
#[tactic(auto, unfolding(crate::specs::Sums::head_of))]
pub fn head_of(kind: u16, a: u16) -> usize
    ensures { result ≡ head_of kind a }
{
    match kind {
        KIND_BLOCK | KIND_BLOCK_EXPRESSION => a as usize,
        _ => 0,
    }
}

// The holds of an operand that stay open for those after it: a block's head keeps its own.
pub fn kept(head: usize, i: usize, holds: usize) -> usize
    ensures { result ≡ kept_of head i holds }
{
    if i < head { holds } else { 0 }
}

// One operand more, with so many values waiting and so many holds open.
pub fn join(u: Used, v: Used, waiting: usize, held: usize) -> Used
    requires { Small u × Small v × (waiting < 2 ^ 62) × (held < 2 ^ 62) }
    ensures { result ≡ joined waiting held u v }
{
    Used {
        entries: u.entries + v.entries,
        need: u.need.max(waiting + v.need),
        cells: u.cells + v.cells,
        holds: u.holds.max(held + v.holds),
    }
}

// The limits of a body.
pub fn keeps(u: Used) -> bool
    ensures { result ≡ keeps_all u }
{
    u.cells <= MAX_CELLS && u.holds <= MAX_HOLDS && u.need <= MAX_OPERANDS
}

// Whether a declaration of the root's head is a procedure over its limits.
pub fn over(kind: u16, u: Used) -> bool
    ensures { result ≡ over_of kind u }
{
    kind == KIND_PROCEDURE && !keeps(u)
}

// The root's own after one more declaration: classes and procedures have no cell and no hold of the root's.
pub fn declared(kind: u16, own: Used, u: Used) -> Used
    requires { Small own × Small u }
    ensures { result ≡ declared_of kind own u }
{
    Used {
        entries: own.entries + u.entries,
        cells: own.cells + table_read::tally(kind, KIND_DECLARE),
        holds: own.holds + table_read::tally(kind, KIND_HOLD),
        ..own
    }
}
