// The loading check.
ghost use Rattle.std.specs.Prelude.{◌≡◌};
ghost use Rattle.bytecode.specs.Rules.{judge_macro};
ghost use Rattle.bytecode.specs.Answers.{packed, verdict_numbers};

use packing::{pack, pack_refusal};

#[unsafe(no_mangle)]
pub extern "C" fn cue_load(code: &[u8]) -> u64
    ensures { result ≡ packed (verdict_numbers (judge_macro code.now)) }
{
    match state_check::load(code) {
        Ok(()) => pack(1, 0, 0, 0),
        Err(refusal) => pack_refusal(refusal),
    }
}
