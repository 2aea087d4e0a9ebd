// The run state's bytes: where each part stands, and each number within its part. (docs/STATE.md)
use crate::limits::*;

pub const STATE_BYTES: usize = 24576;

// a value's word; its type byte stands in another row
pub const WORD_BYTES: usize = 4;

// ── the header ──
pub const PHASE_AT: usize = 0;

pub const CONDITION_AT: usize = 1;

pub const ACTIVATION_COUNT_AT: usize = 2;

pub const RECORD_COUNT_AT: usize = 4;

pub const HOLD_COUNT_AT: usize = 6;

// phases
pub const RUNNING: u8 = 0;

pub const RELEASING: u8 = 1;

pub const ENDED: u8 = 2;

// ── the parts ──
pub const ACTIVATIONS_AT: usize = 32;

pub const HOLDS_AT: usize = ACTIVATIONS_AT + MAX_ACTIVATIONS * ACTIVATION_BYTES; // 10528

pub const RECORDS_AT: usize = HOLDS_AT + MAX_OPEN_HOLDS; // 11040

// ── an activation ──
pub const OPERAND_COUNT_AT: usize = 1;

pub const OWN_HOLD_COUNT_AT: usize = 2;

pub const ADDRESS_AT: usize = 4;

pub const CELL_WORDS_AT: usize = 8;

pub const OPERAND_WORDS_AT: usize = CELL_WORDS_AT + WORD_BYTES * MAX_CELLS; // 136

pub const CELL_TYPES_AT: usize = OPERAND_WORDS_AT + WORD_BYTES * MAX_OPERANDS; // 264

pub const OPERAND_TYPES_AT: usize = CELL_TYPES_AT + MAX_CELLS; // 296

pub const ACTIVATION_BYTES: usize = OPERAND_TYPES_AT + MAX_OPERANDS; // 328

// ── a record ──
pub const FIELD_WORDS_AT: usize = 4;

pub const FIELD_TYPES_AT: usize = FIELD_WORDS_AT + WORD_BYTES * MAX_FIELDS; // 36

pub const RECORD_BYTES: usize = FIELD_TYPES_AT + MAX_FIELDS; // 44
