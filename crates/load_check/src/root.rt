// Where the root stands, for a caller who has no index of bodies.
ghost use Rattle.load_places.specs.Index.{Well};
ghost use Rattle.load_rules.specs.Moves.{BodyAt};

use formats::compiled::*;

// The root's record stands after the classes.
pub fn root_at(code: &[u8]) -> usize
    requires { Well code.now }
    ensures { BodyAt code.now 0 result }
{
    let n = words::wide::byte_at(code, CLASS_COUNT_AT);
    let mut p: usize = HEAD_BYTES;
    for k in 0..n {
        p = p + CLASS_BYTES + words::wide::byte_at(code, p + FIELD_COUNT_AT);
    }
    p
}
