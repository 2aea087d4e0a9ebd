// The numbers of the byte formats and their limits, each under one name, for the code that reads and writes them. To code a constant is a literal.
// The definitions have these numbers from paper 01 and docs/STATE.md; that both mean the same is part of what is proved of the code.
// Kept (point 1): kinds, ops, types and phases are constants and no enums. They are judged where they are read, at each entry or instruction anew, by one
// `match` whose `_` is the refusal, and the contracts (`in_layout`, `effect`, `plain_fits`) speak of every number that fits the field; an enum would have the
// same list once more in its TryFrom, and an error to turn into that refusal. (The conditions of operators, which code makes and hands on, are `values::Condition`;
// those of the machine's other instructions are still handed on as numbers.)
#![tactic(auto)]

pub mod compiled;
pub mod entries;
pub mod limits;
pub mod state;
pub mod wide;
