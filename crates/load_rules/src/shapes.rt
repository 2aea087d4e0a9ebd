// The shapes, which rise by address: the walk meets them in step with the addresses, a jump searches for one from the first of its target's group.
ghost use Rattle.std.specs.Prelude.{◌≡◌, ℕ, ◌+◌, ◌≤◌, ◌<◌};
ghost use Rattle.load_places.specs.Records.{count, shapes as shape_count, code_base, shape_place};
ghost use Rattle.load_places.specs.Index.{Well, Ended};
ghost use Rattle.load_rules.specs.Moves.{Shaped, ShapeFound, OneOfShapes, next_address, Next, NotPast};

use crate::lookup::wide;
use formats::compiled::*;
use load_places::{NextShape, SHAPE_GROUP};

// The address of no instruction.
const NO_ADDRESS: usize = 65536;

// What stands at the place: a shape, or the end behind the last.
fn shape_read(code: &[u8], place: usize) -> NextShape
    requires { (Well code.now) × (Ended code.now) × (OneOfShapes code.now place) }
    ensures { (result.place ≡ place)
        × ((j : ℕ) → j ≤ shape_count code.now → place ≡ shape_place code.now j → result.address ≡ next_address code.now j) }
{
    if place + END_BYTES == code.len() {
        return NextShape {
            place,
            address: NO_ADDRESS,
        };
    }
    let address = words::wide::half_at(code, place + SHAPE_ADDRESS_AT);
    NextShape { place, address }
}

pub fn first_shape(code: &[u8], base: usize, instructions: usize) -> NextShape
    requires { (Well code.now) × (Ended code.now) × (base ≡ code_base code.now) × (instructions ≡ count code.now) × (instructions < 65536) }
    ensures { Next code.now 0 result }
{
    shape_read(code, base + CODE_BYTES * instructions)
}

// The next one after an address: another only if this one is the address's own.
pub fn shape_after(code: &[u8], next: NextShape, address: usize) -> NextShape
    requires { (Well code.now) × (Ended code.now) × (Next code.now address next) × (address < count code.now) }
    ensures { Next code.now (address + 1) result }
{
    if next.address != address {
        return next;
    }
    let types = words::wide::byte_at(code, next.place + SHAPE_DEPTH_AT);
    shape_read(code, next.place + SHAPE_BYTES + types)
}

// The shape of an address, from a place on that is not past it.
fn search_shape(code: &[u8], from: usize, address: usize) -> Option<usize>
    requires { (Well code.now) × (Ended code.now) × (NotPast code.now address from) × (address < count code.now) }
    ensures { ShapeFound code.now address result }
{
    let mut p = from;
    // Kept (point 3): the records are of unequal sizes, and the search may stop at each; no count of what is left is at hand for a `for`.
    while p + END_BYTES < code.len() {
        let a = words::wide::half_at(code, p + SHAPE_ADDRESS_AT);
        if a == address {
            return Some(p);
        }
        if address < a {
            return None;
        }
        p = p + SHAPE_BYTES + words::wide::byte_at(code, p + SHAPE_DEPTH_AT);
    }
    None
}

// Kept (point 1): in the index 0 stands for a group without a shape, as no record stands at the head's place. An index of Options takes twice its 32 KB,
// more than the stack that include/desk.h names.
pub fn shape_at(code: &[u8], shapes: &[u32], address: usize) -> Option<usize>
    requires { (Shaped code.now shapes.now) × (address < count code.now) }
    ensures { ShapeFound code.now address result }
{
    let from = wide(shapes[address / SHAPE_GROUP]);
    if from == 0 {
        return None;
    }
    search_shape(code, from, address)
}
