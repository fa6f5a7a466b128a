//! Values. They know no store.
/// What a register, a slot, a property or a handle holds.
#[derive(Clone, Copy, Debug, PartialEq, Eq)]
pub enum Val {
    Empty,
    Int(u32),
    /// A reference to the cell with this id.
    Cell(u32),
}
