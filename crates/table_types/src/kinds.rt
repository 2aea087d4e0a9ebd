// The kinds of entries as u32, as numbers of the environment are.

use formats::entries::*;

pub const ASSIGN: u32 = KIND_ASSIGN as u32;

pub const GOTO: u32 = KIND_GOTO as u32;

pub const ASSERT: u32 = KIND_ASSERT as u32;

pub const CALL: u32 = KIND_CALL as u32;

pub const SET: u32 = KIND_SET as u32;

pub const INTEGER: u32 = KIND_INTEGER as u32;

pub const LOGICAL: u32 = KIND_LOGICAL as u32;

pub const BITS: u32 = KIND_BITS as u32;

pub const NULL: u32 = KIND_NULL as u32;

pub const VARIABLE: u32 = KIND_VARIABLE as u32;

pub const FUNCTION: u32 = KIND_FUNCTION as u32;

pub const FIELD: u32 = KIND_FIELD as u32;

pub const RECORD: u32 = KIND_RECORD as u32;

pub const IF_EXPRESSION: u32 = KIND_IF_EXPRESSION as u32;

pub const FADER: u32 = KIND_FADER as u32;
