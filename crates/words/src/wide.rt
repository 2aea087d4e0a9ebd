// The same numbers as places and counts: as usize, with the bound that they keep.
ghost use Rattle.std.specs.Prelude.{◌≡◌, ◌+◌, ◌≤◌, ◌<◌, length};
ghost use Rattle.words.specs.Numbers.{byte_at, half_at, word_at};

pub fn byte_at(l: &[u8], i: usize) -> usize
    requires { i < length l.now }
    ensures { (result ≡ byte_at l.now i) × (result < 256) }
{
    l[i] as usize
}

pub fn half_at(l: &[u8], i: usize) -> usize
    requires { i + 2 ≤ length l.now }
    ensures { (result ≡ half_at l.now i) × (result < 65536) }
{
    super::half_at(l, i) as usize
}

pub fn word_at(l: &[u8], i: usize) -> usize
    requires { i + 4 ≤ length l.now }
    ensures { (result ≡ word_at l.now i) × (result < 4294967296) }
{
    super::word_at(l, i) as usize
}
