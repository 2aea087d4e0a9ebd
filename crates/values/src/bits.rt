// Operators on bits: words of 32 bits, and shifts by any count.
ghost use Rattle.std.specs.Prelude.{◌≡◌};
ghost use Rattle.values.specs.Arithmetic.{and_bits, or_bits, not_bits, shifted_left, shifted_right};

pub fn and_bits(x: u32, y: u32) -> u32
    ensures { result ≡ and_bits x y }
{
    x & y
}

pub fn or_bits(x: u32, y: u32) -> u32
    ensures { result ≡ or_bits x y }
{
    x | y
}

pub fn not_bits(x: u32) -> u32
    ensures { result ≡ not_bits x }
{
    !x
}

// A negative count shifts the other way.
pub fn shift_left(x: u32, n: i32) -> u32
    ensures { result ≡ shifted_left x n }
{
    let by = n.unsigned_abs();
    if n >= 0 {
        x.unbounded_shl(by)
    } else {
        x.unbounded_shr(by)
    }
}

pub fn shift_right(x: u32, n: i32) -> u32
    ensures { result ≡ shifted_right x n }
{
    let by = n.unsigned_abs();
    if n < 0 {
        x.unbounded_shl(by)
    } else {
        x.unbounded_shr(by)
    }
}
