// Operators on integers of 32 bits: exact, or ended by a condition. + − × go by way of 64 bits, which hold every exact result;
// the others meet a zero divisor and the one operand pair that leaves 32 bits first, and compute in 32 bits.
// Kept (point 4): no `checked_div`, `checked_neg`, `wrapping_rem`, since paper 01 names the form (F8): "i32 division, remainder, negation and abs, with
// −2147483648 by −1 and zero handled first".
ghost use Rattle.std.specs.Prelude.{◌≡◌, not};
ghost use Rattle.std.specs.Int.Signed.{lt_z, le_z};
ghost use Rattle.values.specs.Arithmetic.{settle as exactly, sum, difference, product, quotient, rest, negation, magnitude};
ghost use Rattle.values.specs.Values.{same_integer};
ghost use Rattle.values.specs.Answers.{outcome_of};

use crate::Condition;

// An exact result, brought into 32 bits.
fn settle(z: i64) -> Result<i32, Condition>
    ensures { outcome_of result ≡ exactly z }
{
    if z < -2147483648 {
        return Err(Condition::Overflow);
    }
    if 2147483647 < z {
        return Err(Condition::Overflow);
    }
    Ok(z as i32)
}

pub fn add(x: i32, y: i32) -> Result<i32, Condition>
    ensures { outcome_of result ≡ sum x y }
{
    settle((x as i64) + (y as i64))
}

pub fn subtract(x: i32, y: i32) -> Result<i32, Condition>
    ensures { outcome_of result ≡ difference x y }
{
    settle((x as i64) - (y as i64))
}

pub fn multiply(x: i32, y: i32) -> Result<i32, Condition>
    ensures { outcome_of result ≡ product x y }
{
    settle((x as i64) * (y as i64))
}

pub fn negate(x: i32) -> Result<i32, Condition>
    ensures { outcome_of result ≡ negation x }
{
    if x == -2147483648 {
        return Err(Condition::Overflow);
    }
    Ok(-x)
}

pub fn absolute(x: i32) -> Result<i32, Condition>
    ensures { outcome_of result ≡ magnitude x }
{
    if x < 0 {
        return negate(x);
    }
    Ok(x)
}

pub fn divide(x: i32, y: i32) -> Result<i32, Condition>
    ensures { outcome_of result ≡ quotient x y }
{
    if y == 0 {
        return Err(Condition::ZeroDivisor);
    }
    if y == -1 { // the only divisor by which a quotient can leave 32 bits
        return negate(x);
    }
    Ok(x / y)
}

pub fn remainder(x: i32, y: i32) -> Result<i32, Condition>
    ensures { outcome_of result ≡ rest x y }
{
    if y == 0 {
        return Err(Condition::ZeroDivisor);
    }
    if y == -1 { // the machine has no remainder where it has no quotient
        return Ok(0);
    }
    Ok(x % y)
}

pub fn less(x: i32, y: i32) -> bool
    ensures { result ≡ lt_z x y }
{
    x < y
}

pub fn at_most(x: i32, y: i32) -> bool
    ensures { result ≡ le_z x y }
{
    x <= y
}

pub fn greater(x: i32, y: i32) -> bool
    ensures { result ≡ lt_z y x }
{
    x > y
}

pub fn at_least(x: i32, y: i32) -> bool
    ensures { result ≡ le_z y x }
{
    x >= y
}

pub fn equal(x: i32, y: i32) -> bool
    ensures { result ≡ same_integer x y }
{
    x == y
}

pub fn unequal(x: i32, y: i32) -> bool
    ensures { result ≡ not (same_integer x y) }
{
    x != y
}
