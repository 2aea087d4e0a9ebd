// A compiled macro's records: their sizes without types, and where each number stands within its record, behind the two bytes of the mark. (paper 01, Compiled macro)

// "HD: classes u8, bodies u8, instructions u16, shapes u16"
pub const CLASS_COUNT_AT: usize = 2;

pub const BODY_COUNT_AT: usize = 3;

pub const CODE_COUNT_AT: usize = 4;

pub const SHAPE_COUNT_AT: usize = 6;

pub const HEAD_BYTES: usize = 8;

// "CL: field count u8, types"
pub const FIELD_COUNT_AT: usize = 2;

pub const CLASS_BYTES: usize = 3;

// "BD: first address u16, parameters u8, result u8 (0 or a type), cells u8, cell types"
pub const FIRST_AT: usize = 2;

pub const PARAMETER_COUNT_AT: usize = 4;

pub const RESULT_AT: usize = 5;

pub const CELL_COUNT_AT: usize = 6;

pub const BODY_BYTES: usize = 7;

// "IN: op u8, a u8, b 32 bits"
pub const CODE_OP_AT: usize = 2;

pub const CODE_A_AT: usize = 3;

pub const CODE_B_AT: usize = 4;

pub const CODE_BYTES: usize = 8;

// "SH: address u16, holds u8, depth u8, types from the bottom"
pub const SHAPE_ADDRESS_AT: usize = 2;

pub const SHAPE_HOLDS_AT: usize = 4;

pub const SHAPE_DEPTH_AT: usize = 5;

pub const SHAPE_BYTES: usize = 6;

// "ZZ: empty, last"
pub const END_BYTES: usize = 2;

// ── type bytes ──
// "A type byte is 1, 2, 3, or 16 + class number.": integer, logical, bits, the first class
pub const TYPE_INTEGER: u8 = 1;

pub const TYPE_LOGICAL: u8 = 2;

pub const TYPE_BITS: u8 = 3;

pub const TYPE_CLASS: u8 = 16;

// ── ops ──
// "Ops: 0 end; 1, 2, 3 push integer, logical, bits b; 4 push null of class a; 5, 6 push, store cell b (…); 7 operator a; 8 go to b; 9 go to b if false; …"
pub const OP_END: u8 = 0;

pub const OP_INTEGER: u8 = 1;

pub const OP_LOGICAL: u8 = 2;

pub const OP_BITS: u8 = 3;

pub const OP_NULL: u8 = 4;

pub const OP_LOAD: u8 = 5;

pub const OP_STORE: u8 = 6;

pub const OP_OPERATOR: u8 = 7;

pub const OP_GO: u8 = 8;

pub const OP_UNLESS: u8 = 9;

pub const OP_CALL: u8 = 10;

pub const OP_RETURN: u8 = 11;

pub const OP_MAKE: u8 = 12;

pub const OP_GET_FIELD: u8 = 13;

pub const OP_PUT_FIELD: u8 = 14;

pub const OP_SET: u8 = 15;

pub const OP_FADER: u8 = 16;

pub const OP_HOLD: u8 = 17;

pub const OP_RELEASE: u8 = 18;

pub const OP_ASSERT: u8 = 19;

pub const OP_STOP: u8 = 20;
