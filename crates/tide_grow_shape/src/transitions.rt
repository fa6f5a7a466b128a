//! What is read of the cells of a table of shapes that several threads grow at once.
//!
//! A table's shapes are items of a vector of `boxcar`, and each has two cells that are set once: `Cells`. A reader
//! keeps what it saw of an entry, with the proof (`Sight`); `Sights` are those of one grower. A walk over them comes
//! to a shape's child by a key, which it makes where there is none. `growers` stands on it. It knows no list of
//! keys.

mod cells;
mod hook;
mod places;
// these stand on those listed before
mod sight;
mod unmade;
// these stand on those listed before
mod sights;
// these stand on those listed before
mod merging;
mod walking;

pub use cells::{Cells, ShownItem};
pub use hook::GrowHook;
pub use places::Places;
pub use sight::Sight;
pub use sights::Sights;
pub use unmade::Unmade;
pub use walking::Sought;
