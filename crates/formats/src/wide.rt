// The same numbers as usize, for code that has widened the byte: a state's phases, type bytes, ops.
use crate::{compiled, state};

pub const RUNNING: usize = state::RUNNING as usize;

pub const RELEASING: usize = state::RELEASING as usize;

pub const ENDED: usize = state::ENDED as usize;

pub const TYPE_INTEGER: usize = compiled::TYPE_INTEGER as usize;

pub const TYPE_LOGICAL: usize = compiled::TYPE_LOGICAL as usize;

pub const TYPE_BITS: usize = compiled::TYPE_BITS as usize;

pub const TYPE_CLASS: usize = compiled::TYPE_CLASS as usize;

pub const OP_END: usize = compiled::OP_END as usize;

pub const OP_INTEGER: usize = compiled::OP_INTEGER as usize;

pub const OP_LOGICAL: usize = compiled::OP_LOGICAL as usize;

pub const OP_BITS: usize = compiled::OP_BITS as usize;

pub const OP_NULL: usize = compiled::OP_NULL as usize;

pub const OP_LOAD: usize = compiled::OP_LOAD as usize;

pub const OP_STORE: usize = compiled::OP_STORE as usize;

pub const OP_OPERATOR: usize = compiled::OP_OPERATOR as usize;

pub const OP_GO: usize = compiled::OP_GO as usize;

pub const OP_UNLESS: usize = compiled::OP_UNLESS as usize;

pub const OP_CALL: usize = compiled::OP_CALL as usize;

pub const OP_RETURN: usize = compiled::OP_RETURN as usize;

pub const OP_MAKE: usize = compiled::OP_MAKE as usize;

pub const OP_GET_FIELD: usize = compiled::OP_GET_FIELD as usize;

pub const OP_PUT_FIELD: usize = compiled::OP_PUT_FIELD as usize;

pub const OP_SET: usize = compiled::OP_SET as usize;

pub const OP_FADER: usize = compiled::OP_FADER as usize;

pub const OP_HOLD: usize = compiled::OP_HOLD as usize;

pub const OP_RELEASE: usize = compiled::OP_RELEASE as usize;

pub const OP_ASSERT: usize = compiled::OP_ASSERT as usize;

pub const OP_STOP: usize = compiled::OP_STOP as usize;
