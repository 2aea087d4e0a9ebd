// The lines of a listing, written into lent bytes from an index on. Each function answers the index after what it wrote.
ghost use Rattle.std.specs.Prelude.{◌∷◌, [], ◌+◌, ◌≤◌, length};
ghost use Rattle.values.specs.Refusals.{refusal_of};
ghost use Rattle.listing_text.specs.Text.{decimal, line, refused_line};
ghost use Rattle.listing_text.specs.Writing.{Puts};

use values::Refusal;

// A number in decimal.
fn put_decimal(text: &mut [u8], at: usize, n: u32) -> usize
    requires { at + length (decimal n) ≤ length text.old }
    ensures { Puts text.old at (decimal n) text.new result }
{
    if n < 10 {
        text[at] = 48 + (n as u8);
        return at + 1;
    }
    let next = put_decimal(text, at, n / 10);
    text[next] = 48 + ((n % 10) as u8);
    next + 1
}

fn put_word(text: &mut [u8], at: usize, word: &[u8]) -> usize
    requires { at + length word.now ≤ length text.old }
    ensures { Puts text.old at word.now text.new result }
{
    let next = at + word.len();
    text[at..next].copy_from_slice(word);
    next
}

// A number after a space.
fn put_number(text: &mut [u8], at: usize, n: u32) -> usize
    requires { at + 1 + length (decimal n) ≤ length text.old }
    ensures { Puts text.old at (32 ∷ decimal n) text.new result }
{
    text[at] = b' ';
    put_decimal(text, at + 1, n)
}

fn put_newline(text: &mut [u8], at: usize) -> usize
    requires { at + 1 ≤ length text.old }
    ensures { Puts text.old at (10 ∷ []) text.new result }
{
    text[at] = b'\n';
    at + 1
}

// A line: a word, and numbers after it.
pub fn put_line(text: &mut [u8], at: usize, word: &[u8], numbers: &[u32]) -> usize
    requires { at + length (line word.now numbers.now) ≤ length text.old }
    ensures { Puts text.old at (line word.now numbers.now) text.new result }
{
    let mut next = put_word(text, at, word);
    for n in numbers {
        next = put_number(text, next, *n);
    }
    put_newline(text, next)
}

pub fn put_refused(text: &mut [u8], at: usize, refusal: Refusal) -> usize
    requires { at + length (refused_line (refusal_of refusal)) ≤ length text.old }
    ensures { Puts text.old at (refused_line (refusal_of refusal)) text.new result }
{
    put_line(
        text,
        at,
        b"refused",
        &[refusal.number as u32, refusal.place],
    )
}
