// Numbers in byte slices, little-endian, and the two readings of 32 bits: as a number and as an integer in two's complement.
#![tactic(auto)]

pub mod wide;

ghost use Rattle.std.specs.Prelude.{◌≡◌, ◌+◌, ◌≤◌, length};
ghost use Rattle.std.proofs.lemmas.List.Edits.{sets};
ghost use Rattle.words.specs.Numbers.{half_at, word_at, half, word, integer_of, word_of};

pub fn half_at(s: &[u8], at: usize) -> u16
    requires { at + 2 ≤ length s.now }
    ensures { result ≡ half_at s.now at }
{
    u16::from_le_bytes([s[at], s[at + 1]])
}

pub fn word_at(s: &[u8], at: usize) -> u32
    requires { at + 4 ≤ length s.now }
    ensures { result ≡ word_at s.now at }
{
    u32::from_le_bytes([s[at], s[at + 1], s[at + 2], s[at + 3]])
}

pub fn integer_at(s: &[u8], at: usize) -> i32
    requires { at + 4 ≤ length s.now }
    ensures { result ≡ integer_of (word_at s.now at) }
{
    integer_of(word_at(s, at))
}

pub fn put_half(s: &mut [u8], at: usize, v: u16)
    requires { at + 2 ≤ length s.old }
    ensures { s.new ≡ sets s.old at (half v) }
{
    s[at..at + 2].copy_from_slice(&v.to_le_bytes());
}

pub fn put_word(s: &mut [u8], at: usize, v: u32)
    requires { at + 4 ≤ length s.old }
    ensures { s.new ≡ sets s.old at (word v) }
{
    s[at..at + 4].copy_from_slice(&v.to_le_bytes());
}

pub fn put_integer(s: &mut [u8], at: usize, v: i32)
    requires { at + 4 ≤ length s.old }
    ensures { s.new ≡ sets s.old at (word (word_of v)) }
{
    put_word(s, at, word_of(v));
}

pub fn integer_of(w: u32) -> i32
    ensures { result ≡ integer_of w }
{
    w.cast_signed()
}

pub fn word_of(z: i32) -> u32
    ensures { result ≡ word_of z }
{
    z.cast_unsigned()
}
