//! `Call`: a call that its mutator makes.
use tide_model::Op;

/// A call: its operation, and its number among all that its mutator made, modulo 2^64, which its call word tells once
/// nothing more is owed.
#[derive(Clone, Copy)]
pub struct Call {
    pub op: Op,
    pub number: u64,
}
