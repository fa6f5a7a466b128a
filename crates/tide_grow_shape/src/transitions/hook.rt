//! Where a test may hold a grower. A hook changes nothing of the table.
use std::marker::Sync;
use tide_model::FreePass;

/// Where growers may be held, so that a test can fix an interleaving.
pub trait GrowHook: Sync {
    /// Returns when the grower may go on. It found the cell of a shape empty, for its first child or for its next
    /// sibling, and comes to set it.
    fn at_empty(&self, shape: u32, next: bool);
}

impl GrowHook for FreePass {
    fn at_empty(&self, _shape: u32, _next: bool) {}
}
