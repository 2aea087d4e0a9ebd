// A compiled macro by the places of its records: the form that the loading check computes. The definitions are in specs/; here the types of
// what the check's functions answer, so that whoever calls them names no crate of the check but its face, `load_check`.
#![tactic(auto)]

// The index of shapes has one place for so many addresses on end: where the first of their shapes stands.
pub const SHAPE_GROUP: usize = 8;

#[derive(Drop)]
pub struct Instruction {
    pub op: usize,
    pub a: usize,
    pub b: usize,
}

// What flows on from an address: a state of holds and operands, whose types stand in a lent stack; nothing; or a fault.
#[derive(Clone, Copy)]
pub enum Moved {
    Goes(usize, usize),
    Ends,
    Bad,
}

// The body that an address is in, its first address, and the address past its last.
#[derive(Clone, Copy)]
pub struct Within {
    pub body: usize,
    pub first: usize,
    pub end: usize,
}

// The first shape that is not before an address: where it stands, and its address. Past the last one: where the end stands, and an address that no
// instruction has.
#[derive(Clone, Copy)]
pub struct NextShape {
    pub place: usize,
    pub address: usize,
}
