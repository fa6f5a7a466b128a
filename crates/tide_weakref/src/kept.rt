//! `Kept`: the cells that a realm keeps until its job ends. It knows no heap.
ghost use Rattle.std.specs.Prelude.{◌≡◌, ◌+◌, ◌<◌, ◌≤◌, [], ◌∷◌, ◌++◌, length, IfOk, vec_len, vec_capacity, nat_lt, ◌||◌};
ghost use Rattle.tide_model.specs.Numbers.{is_among};

use crate::range::Range16;
use std::alloc::Global;
use tide_model::Memory;

/// The cells that a realm keeps, each in a strong handle of its own.
#[derive(Drop)]
pub struct Kept {
    pub(crate) handles: Range16,
    /// The first is in the first handle, and so on.
    pub(crate) cells: Vec<u32>,
    ghost few: { vec_len cells ≤ handles.count },
    ghost room: { handles.count ≤ vec_capacity cells },
}

impl Kept {
    /// Strong handles that keep nothing.
    pub fn new(alloc: Global, handles: Range16) -> Result<Kept, Memory>
        ensures handles { IfOk result (λ kept. kept.handles ≡ handles) }
        ensures cells { IfOk result (λ kept. kept.cells.items ≡ []) }
    {
        let cells = Vec::with_capacity(alloc, usize::from(handles.count))?;
        Ok(Kept { handles, cells })
    }

    /// Whether the cell is kept.
    pub fn has(&self, cell: u32) -> bool
        ensures { result ≡ is_among self.now.cells.items cell }
    {
        self.cells.as_slice().contains(&cell)
    }

    /// Whether a handle is left that keeps nothing.
    pub fn has_room(&self) -> bool
        ensures { result ≡ nat_lt (length self.now.cells.items) self.now.handles.count }
    {
        self.cells.len() < usize::from(self.handles.count)
    }

    /// The first handle that keeps nothing.
    pub fn next(&self) -> u16
        requires room { length self.now.cells.items < self.now.handles.count }
        requires within { self.now.handles.first + self.now.handles.count ≤ 65536 }
        ensures { result ≡ self.now.handles.first + length self.now.cells.items }
    {
        self.handles.first + self.cells.len() as u16
    }

    /// Keeps a cell in the first handle that keeps nothing.
    pub fn add(&mut self, cell: u32)
        requires { length self.old.cells.items < self.old.handles.count }
        ensures handles { self.new.handles ≡ self.old.handles }
        ensures cells { self.new.cells.items ≡ self.old.cells.items ++ cell ∷ [] }
    {
        self.cells.push_reserved(cell);
    }

    /// How many cells are kept.
    pub fn count(&self) -> u16
        ensures { result ≡ length self.now.cells.items }
    {
        let _most = self.handles.count;
        self.cells.len() as u16
    }

    /// Keeps nothing any more.
    pub fn clear(&mut self)
        ensures handles { self.new.handles ≡ self.old.handles }
        ensures cells { self.new.cells.items ≡ [] }
    {
        self.cells.clear();
    }
}
