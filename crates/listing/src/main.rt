// Reads a table from standard input and prints its listing. It reads one byte more than a table may have, so that refusal 1 can arise (S15).
#![tactic(auto)]

ghost use Rattle.std.specs.Prelude.{◌≡◌, length};

use std::io;

// The most bytes that a table may have, and one more. (Arrays of this size are the work of functions, so that proofs see only their lengths.)
fn table_room() -> [u8; 16385]
    ensures { 16385 ≡ length result }
{
    [0; 16385]
}

// 65,535 lines of 12 bytes, 53 bytes of totals, and a last line of 23.
fn text_room() -> [u8; 786496]
    ensures { 786496 ≡ length result }
{
    [0; 786496]
}

fn main(rt: HostRuntime) -> io::Result<()> {
    let mut table = table_room();
    let mut text = text_room();
    let n = reading::read_full(&mut rt.reader(), &mut table)?;
    let m = listing_text::list(&table[..n], &mut text);
    rt.write_all(&text[..m])
}
