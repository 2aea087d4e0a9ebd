// Op 7: the operators on values as a run state holds them, words of 32 bits with a type byte.
ghost use Rattle.std.specs.Prelude.{◌≡◌, eqb};
ghost use Rattle.bytecode.specs.Words.{log_word};
ghost use Rattle.values.specs.Values.{same_integer};
ghost use Rattle.words.specs.Numbers.{integer_of};
ghost use Rattle.logic.specs.Choice.{If◌then◌else◌};
ghost use Rattle.machine_ops.specs.Works.{typed, worked, Works1, Works2};

use formats::compiled::*;
use values::Condition;

// A word and its type byte.
#[derive(Clone, Copy)]
pub struct Typed {
    pub word: u32,
    pub ty: u8,
}

fn number(c: Result<i32, Condition>) -> Result<Typed, Condition>
    ensures { result ≡ worked c }
{
    let z = c?;
    Ok(Typed {
        word: words::word_of(z),
        ty: TYPE_INTEGER,
    })
}

fn truth(b: bool) -> Typed
    ensures { result ≡ typed (log_word b) 2 }
{
    Typed {
        word: b as u32,
        ty: TYPE_LOGICAL,
    }
}

// The words of two values of one type are equal where the values are.
fn same(t: u8, x: u32, y: u32) -> bool
    ensures { result ≡ (If eqb t 1 then same_integer (integer_of x) (integer_of y) else eqb x y) }
{
    if t == TYPE_INTEGER {
        return values::equal(words::integer_of(x), words::integer_of(y));
    }
    x == y
}

// Kept (point 7): one `match` on the operator's number, here and below, and no table of functions: a closed list, of which some need the type and some do not.
pub fn unary(op: u8, t: u8, x: u32) -> Result<Typed, Condition>
    ensures { Works1 op t x result }
{
    match op {
        20 => number(values::negate(words::integer_of(x))),
        21 => number(values::absolute(words::integer_of(x))),
        _ => {
            if t == TYPE_LOGICAL {
                return Ok(truth(x == 0));
            }
            Ok(Typed {
                word: values::not_bits(x),
                ty: t,
            })
        }
    }
}

// t is the type byte of x.
pub fn binary(op: u8, t: u8, x: u32, y: u32) -> Result<Typed, Condition>
    ensures { Works2 op t x y result }
{
    let a = words::integer_of(x);
    let b = words::integer_of(y);
    match op {
        1 => number(values::add(a, b)),
        2 => number(values::subtract(a, b)),
        3 => number(values::multiply(a, b)),
        4 => number(values::divide(a, b)),
        5 => number(values::remainder(a, b)),
        6 => Ok(truth(values::less(a, b))),
        7 => Ok(truth(values::at_most(a, b))),
        8 => Ok(truth(values::greater(a, b))),
        9 => Ok(truth(values::at_least(a, b))),
        10 => Ok(truth(same(t, x, y))),
        11 => Ok(truth(!same(t, x, y))),
        12 => Ok(Typed {
            word: values::and_bits(x, y),
            ty: t,
        }),
        13 => Ok(Typed {
            word: values::or_bits(x, y),
            ty: t,
        }),
        14 => Ok(Typed {
            word: values::shift_left(x, b),
            ty: t,
        }),
        _ => Ok(Typed {
            word: values::shift_right(x, b),
            ty: t,
        }),
    }
}
