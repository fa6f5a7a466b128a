//! The lines of a run and of a fault, composed on the stack, piece by piece, as specs/ says.
//!
//! Each piece is put behind those before it, so that a line takes no memory and is written as one. It knows no sink and
//! no document that a workload is read from.

mod line;
// these stand on those listed before
mod call;
mod fault;

pub use call::{LONGEST_OP, LONGEST_REPLY};
pub use fault::LONGEST_FAULT;
pub use line::{LONGEST_ID, LONGEST_KEY, LONGEST_LINE, LONGEST_REGISTER, Line};
