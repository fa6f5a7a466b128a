//! The parts of the plain store, each by itself: mutators, handles, cells, arrays, and the places of a table.
//!
//! Each part is a struct with private fields. Contracts see the lists that it holds (`specs/PartLists.antt`), and say
//! what they are after a change and what a sweep leaves of them. No part knows another one, the layout or the shapes;
//! what the lists mean together, and that they agree, is for `stored` to say.

mod mutators;
mod stored_cell;
mod taken;
// these stand on those listed before
mod sweeping;
// these stand on those listed before
mod cells;
mod handles;
// these stand on those listed before
mod arrays;
mod pairs;

pub use arrays::{Arrays, Elements};
pub use cells::Cells;
pub use handles::Handles;
pub use mutators::{Mutators, StoredMutator};
pub use pairs::{place_of, seat, value_of};
pub use stored_cell::{Pair, StoredCell};
