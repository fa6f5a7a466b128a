//! The checks of threads beside one another: visitors that drain beside a mutator, and threads that grow shapes.
//!
//! It may touch the heap with its collector, mutators and visitors, and growers; of other checks `check_heap`, for
//! findings and rows, `check_words`, for operations that are written, and `embed_heap`, for a heap with a visitor. It
//! knows no program, and reads no file: `checks` calls it for the lines of its input, and hands it the rows.
#![tactic(auto)]

mod drains;
// these stand on those listed before
mod shapes;

pub use drains::check_drains;
pub use shapes::check_shapes;
