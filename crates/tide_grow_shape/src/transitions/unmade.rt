//! Why a walk came to no child.
use crate::transitions::cells::ShownItem;

/// Why there is no child, where there was none yet.
#[derive(Drop)]
pub enum Unmade {
    /// No number is left for this item.
    Many(ShownItem),
    /// There was no memory for it.
    Memory,
}
