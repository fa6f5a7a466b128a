//! `Growth`: an addition in an array that is still to be taken.
use tide_heap::Addition;
use tide_model::Val;

/// The addition of a property in an array of a class that is still to be taken, in place of the cell's.
#[derive(Clone, Copy)]
pub struct Growth {
    pub addition: Addition,
    pub array: Option<u32>,
    pub class: u8,
    pub value: Val,
    /// The cell's structure word, and the one to come.
    pub old: u64,
    pub next: u64,
}
