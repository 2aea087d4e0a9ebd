// The sizes of the entries that a pass goes by: the reader wrote them.
ghost use Rattle.std.specs.Prelude.{◌≡◌, ◌/◌, ◌≤◌, ◌<◌, length, drop, get_or};
ghost use Rattle.language_laws.specs.Claims.{entries_of};
ghost use Rattle.table_entries.specs.Spans.{span};
ghost use Rattle.table_entries.specs.Sizes.{Known};

use formats::entries::*;

pub fn size_at(sizes: &[u16], place: usize) -> usize
    requires { place < length sizes.now }
    ensures { result ≡ get_or sizes.now place 0 }
{
    sizes[place] as usize
}

// The entries of so many parts from a place on.
pub fn spanned(table: &[u8], sizes: &[u16], from: usize, parts: usize) -> usize
    requires { Known table.now sizes.now × (from ≤ length table.now / 8) }
    ensures { result ≡ span parts (drop from (entries_of table.now)) }
{
    let count = table.len() / ENTRY_BYTES;
    let mut at = from;
    for left in (0..parts).rev() {
        if count <= at {
            return at - from;
        }
        at += size_at(sizes, at);
    }
    at - from
}
