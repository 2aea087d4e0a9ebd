// How much there may be of what. (paper 01)
use crate::entries::*;

// "At most 2,048 entries, nesting at most 64 deep; the root, a block (kind 1), is depth 1."
pub const MAX_ENTRIES: usize = 2048;

pub const MAX_TABLE_BYTES: usize = ENTRY_BYTES * MAX_ENTRIES;

pub const MAX_NESTING: usize = 64;

// what is left of it below the root, and below a procedure of the root's head
pub const BELOW_ROOT: usize = MAX_NESTING - 1;

pub const BELOW_HEAD: usize = BELOW_ROOT - 1;

// "counts (1 to 64 bodies, 16 classes, 1 to 8 fields)"
pub const MAX_BODIES: usize = 64;

pub const MAX_CLASSES: usize = 16;

pub const MAX_FIELDS: usize = 8;

// "Kinds 11 and 12 stand only in the root's head, at most 16 and 63."; the root is a body too
pub const MAX_PROCEDURES: usize = MAX_BODIES - 1;

// "A body has at most 32 cells (…), 16 holds open together, and a working need of 32."
pub const MAX_CELLS: usize = 32;

pub const MAX_HOLDS: usize = 16;

pub const MAX_OPERANDS: usize = 32;

// "1 to 32 activations, the lowest the root, and at most 256 records"
pub const MAX_ACTIVATIONS: usize = 32;

pub const MAX_RECORDS: usize = 256;

// the holds of all activations together
pub const MAX_OPEN_HOLDS: usize = MAX_ACTIVATIONS * MAX_HOLDS;

// "set (channel 1 to 512, level 0 to 255)"; "A fader (1 to 64) reads a byte."; "hold group a (0 to 63)"
pub const CHANNELS: u32 = 512;

pub const MAX_LEVEL: u32 = 255;

pub const FADERS: usize = 64;

pub const GROUPS: usize = 64;
