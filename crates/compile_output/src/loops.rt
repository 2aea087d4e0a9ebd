// The instructions of a loop are the same for every loop but for its cells and addresses: they are written from two patterns.
ghost use Rattle.std.specs.Prelude.{◌≡◌, ◌≤◌, ◌<◌, length, take};
ghost use Rattle.bytecode.specs.Macro.{Shape};
ghost use Rattle.compile_code.specs.Compile.{code_entered, code_turned};
ghost use Rattle.compile_output.specs.EmitRecord.{Fits};
ghost use Rattle.compile_output.specs.EmitCode.{Stacked, cursor_after, emitted};
ghost use Rattle.compile_output.specs.Rows.{number_in, cursor_row, emit_row, cursor_rows, emit_rows};

use crate::Cursor;
use formats::compiled;

// ── a row ──
// The b of an instruction.
#[derive(Clone, Copy)]
enum Operand {
    Number(u32),
    // a cell of the loop
    Cell(u8),
    // so far from where the pattern begins (or, after a turn, from where the turn began)
    Here(u8),
    // behind the loop
    Exit,
}

#[derive(Clone, Copy)]
enum Row {
    // the shape that is found there
    Mark,
    // op, a and b
    Op(u8, u8, Operand),
}

const PUSH: u8 = compiled::OP_INTEGER;

const LOAD: u8 = compiled::OP_LOAD;

const STORE: u8 = compiled::OP_STORE;

const OPERATE: u8 = compiled::OP_OPERATOR;

const GO: u8 = compiled::OP_GO;

const UNLESS: u8 = compiled::OP_UNLESS;

const STOP: u8 = compiled::OP_STOP;

const PLUS: u8 = 1;

const MINUS: u8 = 2;

const LESS: u8 = 6;

const AT_MOST: u8 = 7;

const GREATER: u8 = 8;

const AT_LEAST: u8 = 9;

const EQUAL: u8 = 10;

const STEP_ZERO: u8 = 28;

// the loop's cells
const VALUE: u8 = 0;

const STEP: u8 = 1;

const LIMIT: u8 = 2;

// the largest integer, the smallest, and −1
const MOST: u32 = 2147483647;

const LEAST: u32 = 2147483648;

const MINUS_ONE: u32 = 4294967295;

// From the three values on the stack to the first turn: `code_entered` in crates/compile_code/specs/Compile says what each step is for.
// Both patterns are read where they lie: a copy of them would be on the stack at each level of the walk over statements.
const ENTERED: [Row; 52] = [
    Row::Op(STORE, 0, Operand::Cell(LIMIT)),
    Row::Op(STORE, 0, Operand::Cell(STEP)),
    Row::Op(STORE, 0, Operand::Cell(VALUE)),
    Row::Op(LOAD, 0, Operand::Cell(STEP)),
    Row::Op(PUSH, 0, Operand::Number(0)),
    Row::Op(OPERATE, EQUAL, Operand::Number(0)),
    Row::Op(UNLESS, 0, Operand::Here(8)),
    Row::Op(STOP, STEP_ZERO, Operand::Number(0)),
    Row::Mark,
    Row::Op(LOAD, 0, Operand::Cell(STEP)),
    Row::Op(PUSH, 0, Operand::Number(0)),
    Row::Op(OPERATE, LESS, Operand::Number(0)),
    Row::Op(UNLESS, 0, Operand::Here(29)),
    Row::Op(LOAD, 0, Operand::Cell(VALUE)),
    Row::Op(LOAD, 0, Operand::Cell(LIMIT)),
    Row::Op(OPERATE, AT_LEAST, Operand::Number(0)),
    Row::Op(UNLESS, 0, Operand::Exit),
    Row::Op(LOAD, 0, Operand::Cell(LIMIT)),
    Row::Op(PUSH, 0, Operand::Number(MOST)),
    Row::Op(LOAD, 0, Operand::Cell(STEP)),
    Row::Op(OPERATE, PLUS, Operand::Number(0)),
    Row::Op(OPERATE, AT_MOST, Operand::Number(0)),
    Row::Op(UNLESS, 0, Operand::Here(44)),
    Row::Op(LOAD, 0, Operand::Cell(LIMIT)),
    Row::Op(LOAD, 0, Operand::Cell(STEP)),
    Row::Op(OPERATE, MINUS, Operand::Number(0)),
    Row::Op(PUSH, 0, Operand::Number(1)),
    Row::Op(OPERATE, MINUS, Operand::Number(0)),
    Row::Op(STORE, 0, Operand::Cell(LIMIT)),
    Row::Op(GO, 0, Operand::Here(48)),
    Row::Mark,
    Row::Op(LOAD, 0, Operand::Cell(VALUE)),
    Row::Op(LOAD, 0, Operand::Cell(LIMIT)),
    Row::Op(OPERATE, AT_MOST, Operand::Number(0)),
    Row::Op(UNLESS, 0, Operand::Exit),
    Row::Op(LOAD, 0, Operand::Cell(LIMIT)),
    Row::Op(PUSH, 0, Operand::Number(LEAST)),
    Row::Op(LOAD, 0, Operand::Cell(STEP)),
    Row::Op(OPERATE, PLUS, Operand::Number(0)),
    Row::Op(OPERATE, AT_LEAST, Operand::Number(0)),
    Row::Op(UNLESS, 0, Operand::Here(44)),
    Row::Op(LOAD, 0, Operand::Cell(LIMIT)),
    Row::Op(LOAD, 0, Operand::Cell(STEP)),
    Row::Op(OPERATE, MINUS, Operand::Number(0)),
    Row::Op(STORE, 0, Operand::Cell(LIMIT)),
    Row::Op(GO, 0, Operand::Here(48)),
    Row::Mark,
    Row::Op(PUSH, 0, Operand::Number(MINUS_ONE)),
    Row::Op(STORE, 0, Operand::Cell(STEP)),
    Row::Op(PUSH, 0, Operand::Number(MOST)),
    Row::Op(STORE, 0, Operand::Cell(LIMIT)),
    Row::Mark,
];

// From the end of a turn to the next.
const TURNED: [Row; 14] = [
    Row::Op(LOAD, 0, Operand::Cell(STEP)),
    Row::Op(PUSH, 0, Operand::Number(0)),
    Row::Op(OPERATE, LESS, Operand::Number(0)),
    Row::Op(LOAD, 0, Operand::Cell(VALUE)),
    Row::Op(LOAD, 0, Operand::Cell(LIMIT)),
    Row::Op(OPERATE, GREATER, Operand::Number(0)),
    Row::Op(OPERATE, EQUAL, Operand::Number(0)),
    Row::Op(UNLESS, 0, Operand::Exit),
    Row::Op(LOAD, 0, Operand::Cell(VALUE)),
    Row::Op(LOAD, 0, Operand::Cell(STEP)),
    Row::Op(OPERATE, PLUS, Operand::Number(0)),
    Row::Op(STORE, 0, Operand::Cell(VALUE)),
    Row::Op(GO, 0, Operand::Here(0)),
    Row::Mark,
];

// ── writing ──
fn number_in(b: Operand, cell: u32, start: u32, exit: u32) -> u32
    requires { (cell < 65536) × (start < 65536) }
    ensures { result ≡ number_in cell start exit b }
{
    match b {
        Operand::Number(n) => n,
        Operand::Cell(n) => cell + n as u32,
        Operand::Here(n) => start + n as u32,
        Operand::Exit => exit,
    }
}

fn put_row(
    row: Row,
    cell: u32,
    start: u32,
    exit: u32,
    holds: usize,
    stack: &[u8],
    depth: usize,
    out: &mut [u8],
    p: Cursor,
) -> Cursor
    requires { (cell < 65536) × (start < 65536) × (depth ≤ length stack.now) × (depth < 256) × (holds < 256) × Fits (cursor_row depth row p) (length out.old) }
    ensures { (result ≡ cursor_row depth row p) × (out.new ≡ emit_row holds depth (take depth stack.now) cell start exit row p out.old) }
{
    match row {
        Row::Mark => crate::shape(out, p, holds, stack, depth),
        Row::Op(op, a, b) => crate::emit(out, p, op, a, number_in(b, cell, start, exit)),
    }
}

// All rows of a pattern.
fn put_rows(
    pattern: &[Row],
    cell: u32,
    start: u32,
    exit: u32,
    holds: usize,
    stack: &[u8],
    depth: usize,
    out: &mut [u8],
    cursor: Cursor,
) -> Cursor
    requires { (cell < 65536) × (start < 65536) × (depth ≤ length stack.now) × (depth < 256) × (holds < 256)
        × Fits (cursor_rows pattern.now (length pattern.now) depth cursor) (length out.old) }
    ensures { (result ≡ cursor_rows pattern.now (length pattern.now) depth cursor)
        × (out.new ≡ emit_rows pattern.now (length pattern.now) holds depth (take depth stack.now) cell start exit cursor
        out.old) }
{
    let mut p = cursor;
    for row in pattern {
        p = put_row(*row, cell, start, exit, holds, stack, depth, out, p);
    }
    p
}

// Before the first turn of a loop with so many operands below its own three; `exit` is the address behind it.
pub fn enter_turns(
    cell: u32,
    exit: u32,
    holds: usize,
    stack: &[u8],
    depth: usize,
    out: &mut [u8],
    cursor: Cursor,
) -> Cursor
    requires { (cell < 65536) × (depth ≤ length stack.now) × (depth < 256) × (holds < 256)
        × ((s : Shape) × Stacked s holds stack.now depth × Fits (cursor_after (code_entered cell cursor.address exit s) cursor) (length out.old)) }
    ensures { (s : Shape) → Stacked s holds stack.now depth → (result ≡ cursor_after (code_entered cell cursor.address exit s) cursor)
        × (out.new ≡ emitted (code_entered cell cursor.address exit s) cursor out.old) }
{
    put_rows(
        &ENTERED,
        cell,
        cursor.address as u32,
        exit,
        holds,
        stack,
        depth,
        out,
        cursor,
    )
}

// After a turn, which began at an address.
pub fn leave_turn(
    cell: u32,
    began: u32,
    exit: u32,
    holds: usize,
    stack: &[u8],
    depth: usize,
    out: &mut [u8],
    cursor: Cursor,
) -> Cursor
    requires { (cell < 65536) × (began < 65536) × (depth ≤ length stack.now) × (depth < 256) × (holds < 256)
        × ((s : Shape) × Stacked s holds stack.now depth × Fits (cursor_after (code_turned cell began exit s) cursor) (length out.old)) }
    ensures { (s : Shape) → Stacked s holds stack.now depth → (result ≡ cursor_after (code_turned cell began exit s) cursor)
        × (out.new ≡ emitted (code_turned cell began exit s) cursor out.old) }
{
    put_rows(&TURNED, cell, began, exit, holds, stack, depth, out, cursor)
}
