//! Why there are no shapes.

/// Why `Shapes::new` made no shapes.
#[derive(Clone, Copy, Debug, PartialEq, Eq)]
pub enum ShapesRefused {
    /// The path with this number, counted from 0, is the first that names a key twice.
    DoubleKey { path: u32 },
    /// There was no memory for them.
    Memory,
}
