//! What a mutator's call owes once one of its steps made its entry, and how it is paid: a register, a new cell's
//! colour, a larger array, a barrier, the call word.
//!
//! Here is also what such a step needs and leaves: where a mutator with a view may stand in the history, and why a call
//! may be made where its action is the call's. It knows which word says what, and no operation: who makes a call, and
//! by which step, it is told.

mod barrier;
mod call;
mod colouring;
mod growth;
mod registers;
mod shape;
// these stand on those listed before
mod arrays;

pub use arrays::replace;
pub use barrier::write_barrier;
pub use call::Call;
pub use colouring::colour;
pub use growth::Growth;
pub use registers::{pay, show};
pub use shape::shape_word;
