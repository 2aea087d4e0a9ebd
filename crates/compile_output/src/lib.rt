// The cursor: where the next instruction and the next shape go in the output. A dry one writes nothing: it only counts, so that one walk serves to measure and to write.
#![tactic(auto)]

mod loops;

ghost use Rattle.std.specs.Prelude.{◌≡◌, true, false, ◌+◌, ◌≤◌, ◌<◌, length, take};
ghost use Rattle.std.proofs.lemmas.List.Edits.{sets};
ghost use Rattle.compile_output.specs.EmitRecord.{instruction, shape_record, moved, cursor_shaped, emit_op, emit_shape, Fits};
ghost use Rattle.compile_output.specs.EmitCode.{lets, cursor_after, emitted};

use formats::compiled::*;
pub use loops::{enter_turns, leave_turn};

#[derive(Clone, Copy)]
pub struct Cursor {
    // the place of the next IN record, and its address
    pub at: usize,
    pub address: usize,
    // the place of the next SH record, and how many there are so far
    pub sh: usize,
    pub shapes: usize,
    // whether an SH stands for this address already: of two the first is kept
    pub waits: bool,
    // nothing is written, as in a dry run
    pub dry: bool,
    // a procedure's code: the root's variables are another body's
    pub inside: bool,
}

fn put_instruction(out: &mut [u8], at: usize, op: u8, a: u8, b: u32)
    requires { at + 8 ≤ length out.old }
    ensures { out.new ≡ sets out.old at (instruction op a b) }
{
    out[at] = b'I';
    out[at + 1] = b'N';
    out[at + CODE_OP_AT] = op;
    out[at + CODE_A_AT] = a;
    words::put_word(out, at + CODE_B_AT, b);
}

pub fn emit(out: &mut [u8], p: Cursor, op: u8, a: u8, b: u32) -> Cursor
    requires { Fits (moved p) (length out.old) }
    ensures { (result ≡ moved p) × (out.new ≡ emit_op p out.old op a b) }
{
    let dry = p.dry;
    if !dry {
        put_instruction(out, p.at, op, a, b);
    }
    Cursor {
        at: p.at + CODE_BYTES,
        address: p.address + 1,
        waits: false,
        ..p
    }
}

// So many releases.
pub fn releases(out: &mut [u8], cursor: Cursor, count: usize) -> Cursor
    requires { Fits (cursor_after (lets count) cursor) (length out.old) }
    ensures { (result ≡ cursor_after (lets count) cursor) × (out.new ≡ emitted (lets count) cursor out.old) }
{
    let mut p = cursor;
    for i in 0..count {
        p = emit(out, p, OP_RELEASE, 0, 0);
    }
    p
}

fn copy(from: &[u8], count: usize, out: &mut [u8], at: usize)
    requires { (count ≤ length from.now) × (at + count ≤ length out.old) }
    ensures { out.new ≡ sets out.old at (take count from.now) }
{
    // Kept (point 3): by `copy_from_slice` the library would ask memmove of C, a name more for those who link it.
    for i in 0..count {
        out[at + i] = from[i];
    }
}

fn put_shape(out: &mut [u8], at: usize, address: u16, holds: u8, stack: &[u8], depth: u8)
    requires { (depth ≤ length stack.now) × (at + 6 + depth ≤ length out.old) }
    ensures { out.new ≡ sets out.old at (shape_record address holds depth (take depth stack.now)) }
{
    out[at] = b'S';
    out[at + 1] = b'H';
    words::put_half(out, at + SHAPE_ADDRESS_AT, address);
    out[at + SHAPE_HOLDS_AT] = holds;
    out[at + SHAPE_DEPTH_AT] = depth;
    copy(stack, depth as usize, out, at + SHAPE_BYTES);
}

// What is found at the next address: so many holds, and the operands whose types the stack begins with.
pub fn shape(out: &mut [u8], p: Cursor, holds: usize, stack: &[u8], depth: usize) -> Cursor
    requires { (depth ≤ length stack.now) × (depth < 256) × (holds < 256) × Fits (cursor_shaped depth p) (length out.old) }
    ensures { (result ≡ cursor_shaped depth p) × (out.new ≡ emit_shape p out.old holds depth (take depth stack.now)) }
{
    if p.waits {
        return p;
    }
    if !p.dry {
        put_shape(out, p.sh, p.address as u16, holds as u8, stack, depth as u8);
    }
    Cursor {
        sh: p.sh + SHAPE_BYTES + depth,
        shapes: p.shapes + 1,
        waits: true,
        ..p
    }
}
