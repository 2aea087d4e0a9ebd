// A table's entries: their bytes and their kinds. (paper 01, The syntax table)

// "Entries of 8 bytes: kind (u16), a (u16), b (32 bits, signed), in prefix order."
pub const KIND_AT: usize = 0;

pub const A_AT: usize = 2;

pub const B_AT: usize = 4;

pub const ENTRY_BYTES: usize = 8;

// ── statements ──
pub const KIND_BLOCK: u16 = 1;

pub const KIND_LABEL: u16 = 20;

pub const KIND_ASSIGN: u16 = 21;

pub const KIND_IF: u16 = 22;

pub const KIND_IF_ELSE: u16 = 23;

pub const KIND_WHILE: u16 = 24;

pub const KIND_GOTO: u16 = 25;

pub const KIND_ASSERT: u16 = 26;

pub const KIND_CALL: u16 = 27;

pub const KIND_SET: u16 = 28;

pub const KIND_CASE: u16 = 30;

pub const KIND_FOR: u16 = 31;

// ── declarations ──
pub const KIND_DECLARE: u16 = 10;

pub const KIND_CLASS: u16 = 11;

pub const KIND_PROCEDURE: u16 = 12;

pub const KIND_HOLD: u16 = 14;

// ── expressions ──
pub const KIND_INTEGER: u16 = 40;

pub const KIND_LOGICAL: u16 = 41;

pub const KIND_BITS: u16 = 42;

pub const KIND_NULL: u16 = 43;

pub const KIND_VARIABLE: u16 = 44;

pub const KIND_FUNCTION: u16 = 45;

pub const KIND_FIELD: u16 = 46;

pub const KIND_RECORD: u16 = 47;

pub const KIND_UNARY: u16 = 48;

pub const KIND_BINARY: u16 = 49;

pub const KIND_IF_EXPRESSION: u16 = 50;

pub const KIND_FADER: u16 = 51;

pub const KIND_BLOCK_EXPRESSION: u16 = 53;
