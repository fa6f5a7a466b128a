//! The cells that one mutator claims, at most eight of them, the oldest claim first.
//!
//! A call is decided by the list, and who makes calls keeps it. It knows no words: whether its cells live, and whether
//! another mutator claims one of them, it does not know either.
ghost use Rattle.std.specs.Prelude.{◌≡◌, ◌<◌, ◌==◌, ◌++◌, ◌∷◌, [], drop, filter, false, length, nat_le, not, slice_get};
ghost use Rattle.tide_model.specs.Numbers.{is_among};
ghost use Rattle.tide_model.specs.Refused.{claims_most};

use arrayvec::ArrayVec;
use std::marker::Model;

/// The cells that a mutator claims, the oldest claim first. Contracts see the list of them.
#[derive(Drop)]
pub struct Claims {
    cells: ArrayVec<u32, 8>,
}

impl Model for Claims {
    ghost use Rattle.std.specs.Prelude.{ℕ, List};

    ghost Value = { List ℕ };

    ghost view = { λ claims. claims.cells.items };
}

impl Claims {
    /// No claims.
    pub fn new() -> Claims
        ensures { result ≡ [] }
    {
        Claims {
            cells: ArrayVec::new(),
        }
    }

    /// Whether the cell is claimed.
    pub fn contains(&self, cell: u32) -> bool
        ensures { result ≡ is_among self.now cell }
    {
        self.cells.contains(&cell)
    }

    /// How many cells are claimed.
    pub fn len(&self) -> u32
        ensures { result ≡ length self.now }
    {
        self.cells.len() as u32
    }

    /// Whether no more cells may be claimed.
    pub fn is_full(&self) -> bool
        ensures { result ≡ nat_le claims_most (length self.now) }
    {
        self.cells.is_full()
    }

    /// The cell that was claimed first, if one is claimed.
    pub fn oldest(&self) -> Option<u32>
        ensures { result ≡ slice_get self.now 0 }
    {
        self.cells.first().copied()
    }

    /// One more cell is claimed.
    pub fn claim(&mut self, cell: u32)
        requires { nat_le claims_most (length self.old) ≡ false }
        ensures { self.new ≡ self.old ++ cell ∷ [] }
    {
        self.cells.push(cell);
    }

    /// The claim on a cell ends, if there is one.
    pub fn release(&mut self, cell: u32)
        ensures { self.new ≡ filter (λ claimed. not (claimed == cell)) self.old }
    {
        self.cells.retain(|claimed| *claimed != cell);
    }

    /// The oldest claim ends.
    pub fn unclaim(&mut self)
        requires { 0 < length self.old }
        ensures { self.new ≡ drop 1 self.old }
    {
        self.cells.remove(0);
    }
}
