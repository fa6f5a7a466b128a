//! Why a grower makes no shape.

/// Why there is no shape with the key added.
#[derive(Clone, Copy, Debug, PartialEq, Eq)]
pub enum GrowRefused {
    /// The shape has the key.
    Present,
    /// The shape has 64 keys, and not this one.
    Deep,
    /// No number is left for the item that stands at this index.
    Many { index: u64 },
    /// There was no memory for it.
    Memory,
}
