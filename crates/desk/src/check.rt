// The table check.
ghost use Rattle.std.specs.Prelude.{◌≡◌};
ghost use Rattle.language.specs.Judge.{judge_table};
ghost use Rattle.bytecode.specs.Answers.{packed, verdict_numbers};

use packing::{pack, pack_refusal};

#[unsafe(no_mangle)]
pub extern "C" fn cue_check(table: &[u8]) -> u64
    ensures { result ≡ packed (verdict_numbers (judge_table table.now)) }
{
    match table_check::check(table) {
        Ok(()) => pack(1, 0, 0, 0),
        Err(refusal) => pack_refusal(refusal),
    }
}
