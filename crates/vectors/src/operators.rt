// The operators of kinds 48 and 49, by number and by the type of the first operand, on the words of the operands.
use crate::Answer;
use values::Condition;

pub fn apply(operator: u8, ty: u8, x: u32, y: u32) -> Answer {
    match ty {
        1 => on_integers(operator, words::integer_of(x), words::integer_of(y)),
        2 => on_logical(operator, x, y),
        3 => on_bits(operator, x, y),
        _ => None,
    }
}

fn number(c: Result<i32, Condition>) -> Answer {
    Some(c.map(words::word_of))
}

fn word(w: u32) -> Answer {
    Some(Ok(w))
}

fn truth(b: bool) -> Answer {
    word(b as u32)
}

fn on_integers(operator: u8, x: i32, y: i32) -> Answer {
    match operator {
        1 => number(values::add(x, y)),
        2 => number(values::subtract(x, y)),
        3 => number(values::multiply(x, y)),
        4 => number(values::divide(x, y)),
        5 => number(values::remainder(x, y)),
        6 => truth(values::less(x, y)),
        7 => truth(values::at_most(x, y)),
        8 => truth(values::greater(x, y)),
        9 => truth(values::at_least(x, y)),
        10 => truth(values::equal(x, y)),
        11 => truth(values::unequal(x, y)),
        20 => number(values::negate(x)),
        21 => number(values::absolute(x)),
        _ => None,
    }
}

// A logical value's word is 0 or 1; another word is none.
fn on_logical(operator: u8, x: u32, y: u32) -> Answer {
    if x < 2 && y < 2 {
        on_truths(operator, x == 1, y == 1)
    } else {
        None
    }
}

fn on_truths(operator: u8, a: bool, b: bool) -> Answer {
    match operator {
        10 => truth(a == b),
        11 => truth(a != b),
        12 => truth(values::both(a, b)),
        13 => truth(values::either(a, b)),
        22 => truth(values::complement(a)),
        _ => None,
    }
}

fn on_bits(operator: u8, x: u32, y: u32) -> Answer {
    match operator {
        10 => truth(x == y),
        11 => truth(x != y),
        12 => word(values::and_bits(x, y)),
        13 => word(values::or_bits(x, y)),
        14 => word(values::shift_left(x, words::integer_of(y))),
        15 => word(values::shift_right(x, words::integer_of(y))),
        22 => word(values::not_bits(x)),
        _ => None,
    }
}
