//! What the plain store holds, as one value with an invariant, and each change of one thing.
//!
//! `Contents` is all of it: a layout, shapes, and the lists of `parts`. Contracts see the layout, the shapes and, by
//! `state_of` of `specs/Contents.antt`, the state of tide_model for which the contents stand; a change says that this
//! state is the old one but for one thing. It knows no operation, refusal or reply: what may be done to whom is for
//! `calls` to decide.

mod contents;

pub use crate::parts::Pair;
pub use crate::statuses::ArrayStatus;
pub use contents::Contents;
