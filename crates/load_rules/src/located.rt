// A macro whose records read, with the indexes of where they stand.

// The bytes; where the first shape of each group of addresses, each body and each class stands; and the place of the first instruction.
#[derive(Clone, Copy)]
pub struct Located<'a> {
    pub code: &'a [u8],
    pub shapes: &'a [u32],
    pub bodies: &'a [u32],
    pub classes: &'a [u32],
    pub base: usize,
}
