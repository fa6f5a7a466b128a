//! Shapes that several threads make at once, before a heap is opened over them.
//!
//! Threads share a `GrowShapes` by `&`. Each has a `Grower` of it, which knows the shapes that it made or met, and
//! grows them by a key more. `settle` leaves a `Settled` of what some growers know: a `ShapeTable`, over which a heap
//! is opened. `transitions` has the cells of a table and what a grower has read of them, `growers` the calls.
//!
//! It may touch shapes, and `boxcar`, which is used here alone; it knows no heap and no word. Programs of one's own
//! have it by `tide`, and no run of `tide_run` uses it.
#![tactic(auto)]

mod transitions;
// these stand on those listed before
mod growers;

pub use growers::{GrowRefused, GrowShapes, Grower, Settled, growers_agree, settle};
pub use transitions::GrowHook;
