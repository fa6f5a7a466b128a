//! What a mutator asked for and was answered. It knows no store.

use tide_model::{Op, Reply};

/// An operation that was asked for, and its reply.
#[derive(Clone, Copy, Debug, PartialEq, Eq)]
pub struct Answered {
    pub op: Op,
    pub reply: Reply,
}
