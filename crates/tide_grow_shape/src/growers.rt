//! Shapes that several threads make at once.
//!
//! Threads share a `GrowShapes` by `&`. Each has a `Grower` of it, which knows the shapes that it made or met, and
//! grows them by a key more. `settle` leaves a `Settled` of what some growers know: a `ShapeTable`, over which a heap
//! is opened. It stands on `transitions`, for the cells of a table and what is read of them.

mod known;
mod refused;
mod table;
// these stand on those listed before
mod maker;
// these stand on those listed before
mod grower;
// these stand on those listed before
mod agreeing;
mod numbered;
// these stand on those listed before
mod settled;
// these stand on those listed before
mod settling;

pub use agreeing::growers_agree;
pub use grower::Grower;
pub use refused::GrowRefused;
pub use settled::Settled;
pub use settling::settle;
pub use table::GrowShapes;
