// Answers test vectors: reads records of 12 bytes from standard input, has the proved functions compute each, and prints a line for it.
// The second evaluator makes records and lines, so a difference shows wrong code before it is proved, and a wrong definition after.
#![tactic(auto)]

mod operators;

ghost use Rattle.std.specs.Prelude.{◌≡◌, length};

use std::io;
use values::Condition;

// What a record comes to: the word of a result, or the condition that ends execution in its place; nothing where it asks for no operator.
pub type Answer = Option<Result<u32, Condition>>;

// Byte 0 is the operator, byte 1 the type of the first operand; the operands' words stand at 4 and 8.
fn evaluate(record: &[u8]) -> Answer
    requires { length record.now ≡ 12 }
{
    let x = words::word_at(record, 4);
    let y = words::word_at(record, 8);
    operators::apply(record[0], record[1], x, y)
}

fn print(rt: &impl Print, a: Answer) -> io::Result<()> {
    match a {
        Some(Ok(w)) => println!(rt; "gives {w}"),
        Some(Err(c)) => println!(rt; "ends {}", c.number()),
        None => println!(rt; "unknown"),
    }
}

// Whole records only: bytes after the last are no record.
fn print_all(rt: &impl Print, s: &[u8]) -> io::Result<()> {
    for record in s.chunks_exact(12) {
        print(rt, evaluate(record))?;
    }
    Ok(())
}

// Room for the records that are read.
fn large_buffer() -> [u8; 65536]
    ensures { 65536 ≡ length result }
{
    [0; 65536]
}

fn main(rt: HostRuntime) -> io::Result<()> {
    let mut buffer = large_buffer();
    let n = reading::read_full(&mut rt.reader(), &mut buffer)?;
    print_all(&rt, &buffer[..n])
}
