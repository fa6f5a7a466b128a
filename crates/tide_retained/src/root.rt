//! `Root`: what holds the first cell of a path. It knows no cell.

/// What holds a cell from outside of the heap.
#[derive(Clone, Copy, Debug, PartialEq, Eq)]
pub enum Root {
    /// A register of an active mutator.
    Register { who: u8, register: u8 },
    /// A claim of a mutator.
    Claim { who: u8 },
    /// A strong handle.
    Strong { handle: u16 },
}
