// The layout of one entry: what a and b of each kind may be.
ghost use Rattle.std.specs.Prelude.{◌≡◌, ◌&&◌, true, nat_abs};
ghost use Rattle.logic.specs.Options.{is_some};
ghost use Rattle.values.specs.Operators.{unary_of, binary_of};
ghost use Rattle.language.specs.Table.{natural as is_natural, entry, in_layout, ty_of_code, is_heading};
ghost use Rattle.table_read.specs.Operands.{is_leaf};

use formats::entries::*;

// How far a signed field is from 0.
pub fn magnitude(b: i32) -> u32
    ensures { result ≡ nat_abs b }
{
    b.unsigned_abs()
}

fn is_type(n: u32) -> bool
    ensures { result ≡ is_some (ty_of_code n) }
{
    matches!(n, 1..=3 | 65536..=131071)
}

fn is_heading(n: u32) -> bool
    ensures { result ≡ is_heading n }
{
    n / 256 <= 8 && n % 256 <= 3
}

#[tactic(auto, unfolding(values::specs::Operators::unary_of))]
fn is_unary(a: u16) -> bool
    ensures { result ≡ is_some (unary_of a) }
{
    matches!(a, 20..=22)
}

#[tactic(auto, unfolding(values::specs::Operators::binary_of))]
fn is_binary(a: u16) -> bool
    ensures { result ≡ is_some (binary_of a) }
{
    matches!(a, 1..=15)
}

#[tactic(auto, unfolding(language::specs::Table::in_layout))]
pub fn in_layout(kind: u16, a: u16, b: i32) -> bool
    ensures { result ≡ in_layout (entry kind a b) }
{
    let whole = b >= 0;
    let n = b.unsigned_abs();
    match kind {
        KIND_BLOCK | KIND_CALL | KIND_FUNCTION | KIND_RECORD | KIND_BLOCK_EXPRESSION => whole,
        KIND_DECLARE => whole && is_type(n),
        KIND_CLASS => 1 <= b && b <= 8,
        KIND_PROCEDURE => whole && is_heading(n),
        KIND_HOLD => a <= 63 && b == 0,
        KIND_LABEL | KIND_GOTO | KIND_FOR | KIND_NULL | KIND_VARIABLE | KIND_FIELD => b == 0,
        KIND_ASSIGN | KIND_IF | KIND_IF_ELSE | KIND_WHILE | KIND_ASSERT | KIND_SET => a == 0
            && b == 0,
        KIND_CASE => 1 <= a && b == 0,
        KIND_INTEGER | KIND_BITS => a == 0,
        KIND_LOGICAL => a == 0 && 0 <= b && b <= 1,
        KIND_UNARY => is_unary(a) && b == 0,
        KIND_BINARY => is_binary(a) && b == 0,
        KIND_IF_EXPRESSION | KIND_FADER => a == 0 && b == 0,
        _ => false,
    }
}

// The same for an entry with no operands, by few tests.
#[tactic(auto, unfolding(language::specs::Table::in_layout, crate::specs::Operands::is_leaf))]
pub fn leaf_layout(kind: u16, a: u16, b: i32) -> bool
    requires { is_leaf kind ≡ true }
    ensures { result ≡ in_layout (entry kind a b) }
{
    match kind {
        KIND_DECLARE => b >= 0 && is_type(b.unsigned_abs()),
        KIND_HOLD => a <= 63 && b == 0,
        KIND_LOGICAL => a == 0 && 0 <= b && b <= 1,
        KIND_INTEGER | KIND_BITS => a == 0,
        _ => b == 0,
    }
}
