// What stands where in a macro whose records read.
ghost use Rattle.std.specs.Prelude.{◌≡◌, ◌+◌, ◌<◌};
ghost use Rattle.words.specs.Numbers.{byte_at, word_at};
ghost use Rattle.load_places.specs.Records.{classes as class_count, bodies as body_count, count, code_base, code_place};
ghost use Rattle.load_places.specs.Rules.{end_of};
ghost use Rattle.load_places.specs.Index.{Well};
ghost use Rattle.load_rules.specs.Moves.{Bodied, Classed, BodyAt, ClassAt};

use formats::compiled::*;
use load_places::Instruction;

pub fn wide(x: u32) -> usize
    ensures { (result ≡ x) × (result < 4294967296) }
{
    x as usize
}

pub fn body_at(code: &[u8], bodies: &[u32], body: usize) -> usize
    requires { (Bodied code.now bodies.now) × (body < body_count code.now) }
    ensures { BodyAt code.now body result }
{
    wide(bodies[body])
}

pub fn class_at(code: &[u8], classes: &[u32], class: usize) -> usize
    requires { (Classed code.now classes.now) × (class < class_count code.now) }
    ensures { ClassAt code.now class result }
{
    wide(classes[class])
}

pub fn end_of(code: &[u8], bodies: &[u32], body: usize) -> usize
    requires { (Bodied code.now bodies.now) × (body < body_count code.now) }
    ensures { result ≡ end_of code.now body }
{
    let m = words::wide::byte_at(code, BODY_COUNT_AT);
    if body + 1 < m {
        let q = body_at(code, bodies, body + 1);
        return words::wide::half_at(code, q + FIRST_AT);
    }
    words::wide::half_at(code, CODE_COUNT_AT)
}

pub fn instruction_at(code: &[u8], base: usize, address: usize) -> Instruction
    requires { (Well code.now) × (base ≡ code_base code.now) × (address < count code.now) }
    ensures { (result.op ≡ byte_at code.now (code_place code.now address + 2))
        × (result.a ≡ byte_at code.now (code_place code.now address + 3))
        × (result.b ≡ word_at code.now (code_place code.now address + 4)) }
{
    let at = base + CODE_BYTES * address;
    let op = words::wide::byte_at(code, at + CODE_OP_AT);
    let a = words::wide::byte_at(code, at + CODE_A_AT);
    let b = words::wide::word_at(code, at + CODE_B_AT);
    Instruction { op, a, b }
}
