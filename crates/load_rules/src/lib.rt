// The loading check: the loading rules, address by address, over the places that the record pass found. What goes from an address to the next is
// here; the walk itself, which also tests a state on its way, is in `state_check`.
#![tactic(auto)]

mod located;
mod lookup;
mod ops;
mod shapes;
mod stack;
mod walk;

pub use located::Located;
pub use lookup::{body_at, class_at, instruction_at};
pub use shapes::{first_shape, shape_after};
pub use walk::{first_body, found_at, go_on, is_bad, next_body};
