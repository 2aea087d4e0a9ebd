// The numbers of the names in sight, as u32. A name is a number of 16 bits, and a mark stands where a name would.
// Kept (point 1): constants and no enum, since they lie in lent numbers (fixed memory), a mark where a name may be and a type where a sort may be.

pub const LAST_NAME: u32 = 65535;

// A block begins.
pub const MARK_OPENED: u32 = 65536;

// A block expression or a procedure begins, which no goto leaves.
pub const MARK_SHUT: u32 = 65537;

// The type of an operand.
pub const MARK_VALUE: u32 = 65538;

// The sorts of definitions. That of a field is the number of the type that it is a field of.
pub const SORT_VARIABLE: u32 = 4;

pub const SORT_LABEL: u32 = 5;

pub const SORT_CLASS: u32 = 6;

pub const SORT_PROCEDURE: u32 = 7;

pub const SORT_CONTROL: u32 = 8;

// Types; that of a reference is this number and its class.
pub const TYPE_INTEGER: u32 = 1;

pub const TYPE_LOGICAL: u32 = 2;

pub const TYPE_BITS: u32 = 3;

pub const TYPE_REFERENCE: u32 = 65536;
