// The compiler, into bytes that C lends.
ghost use Rattle.std.specs.Prelude.{◌≡◌};
ghost use Rattle.language.specs.Judge.{compile_on};
ghost use Rattle.bytecode.specs.Answers.{packed};
ghost use Rattle.desk.specs.Compiled.{compiled_numbers};
ghost use Rattle.compile_code.specs.Encode.{macro_of};

use packing::{pack, pack_refusal};

// The macro of a table, at the front of the output, and its length. A refusal writes nothing. Equal tables give equal macros: what is written is
// `macro_of` of the table's tree, whatever the output held (`equal-bytes`, demands/specs/Third).
#[unsafe(no_mangle)]
pub extern "C" fn cue_compile(table: &[u8], out: &mut [u8]) -> u64
    ensures { (result ≡ packed (compiled_numbers (compile_on macro_of table.now out.old).verdict))
        × (out.new ≡ (compile_on macro_of table.now out.old).bytes) }
{
    match compile::compile(table, out) {
        Ok(length) => pack(1, 0, 0, length as u64),
        Err(refusal) => pack_refusal(refusal),
    }
}
